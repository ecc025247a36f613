//! The values of a field among the headers of a chain.
ghost use Rattle.std.specs.Prelude.{◌≡◌, ◌<◌};
ghost use Rattle.mt_cuts.specs.Canonical.{least_of, last_of};

use mt_packet::Field;

/// The last value of a field, where frames arrive on so many devices.
pub fn last_of(devices: u32, field: Field) -> u64
    ensures last { result ≡ last_of devices field }
    ensures bound { result < 281474976710656 }
{
    match field {
        Field::Device => u64::from(devices),
        _ => field.greatest(),
    }
}

/// The least value of a field: devices are numbered from 1.
pub fn least_of(field: Field) -> u64
    ensures { result ≡ least_of field }
{
    match field {
        Field::Device => 1,
        _ => 0,
    }
}
