//! What holds of all texts. The contract of the function is the law; there is nothing to run.
ghost use Rattle.mt_click.specs.Graphs.{OneReading};

use mt_syntax::laws::texts_are_read;

/// A text has one graph, or no graph and one fault.
pub fn one_reading()
    ensures { OneReading }
{
    texts_are_read();
}
