//! Command lines by hand, and what is told of each.
use crate::{BindFault, Device, Run, WordsFault, bind, read};
use std::alloc::{AllocError, Global};
use std::test::Fail;

// The words of a line, with a space between them.
fn words_of(alloc: Global, line: &str) -> Result<Vec<String>, AllocError> {
    let mut words = Vec::new(alloc);
    if !line.is_empty() {
        for word in line.split(' ') {
            words.push(String::from_str(alloc, word)?)?;
        }
    }
    Ok(words)
}

// The number that is told of words.
fn number_of(answer: &Result<Run<'_>, WordsFault>) -> Option<u32> {
    match answer {
        Ok(_) => None,
        Err(WordsFault::Word(number)) => Some(*number),
        Err(WordsFault::NoMemory) => Some(u32::MAX),
    }
}

// What is told of a line, where policies have names: the number that is told, or else the policy.
fn policy_of(alloc: Global, line: &str, names: &[&[u8]]) -> Result<String, AllocError> {
    let words = words_of(alloc, line)?;
    if words.len() > 512 {
        return Err(AllocError);
    }
    match read(alloc, words.as_slice(), names) {
        Ok(run) => match str::from_utf8(run.ports) {
            Ok(name) => String::from_str(alloc, name),
            Err(_) => Err(AllocError),
        },
        Err(WordsFault::Word(number)) => format!(in alloc; "{number}"),
        Err(WordsFault::NoMemory) => Err(AllocError),
    }
}

/// A line has the policy that the words behind it name, or the number that is told of them.
#[test]
fn words_name_a_policy(rt: HostRuntime) -> Result<(), Fail> {
    let cases = "low:run c s
high:run c s --ports high
spread:--ports spread run c s in:a=x
high:run --ports=high c s
high:run c s --ports=high -- in:a=x
6:run c s in:a=x out:b=y --ports none
3:run c s --ports=none
2:run --ports c s
4:run c s --ports
3:run c --ports -low s
4:run c s --ports --
3:run c s --ports=-low
3:run c s --ports=
3:run c s --portslow
5:run c s --ports low --ports high
4:run c s --ports=low --ports
3:run --ports=low c --ports=low
4:run c --ports low
4:run c s -- --ports low
2:run c - --ports none";
    let names = [b"low".as_slice(), b"high".as_slice(), b"spread".as_slice()];
    for case in cases.split('\n') {
        if let Some((told, line)) = case.split_once(':') {
            let policy = policy_of(rt.alloc(), line, &names)?;
            assert_eq!(rt; (case, policy.as_str()), (case, told));
        }
    }
    Ok(())
}

/// Where no policy is called `low`, one has to be named.
#[test]
fn a_policy_is_named_where_none_is_low(rt: HostRuntime) -> Result<(), Fail> {
    let cases = "3:run c s
4:run c s in:a=x
3:run c s in:a
last:run c s --ports last
5:run c s in:a=x --ports low";
    let names = [b"first".as_slice(), b"last".as_slice()];
    for case in cases.split('\n') {
        if let Some((told, line)) = case.split_once(':') {
            let policy = policy_of(rt.alloc(), line, &names)?;
            assert_eq!(rt; (case, policy.as_str()), (case, told));
        }
    }
    Ok(())
}

/// A line has the number that is told of the words behind it, or `ok`.
#[test]
fn words_are_commands_or_at_fault(rt: HostRuntime) -> Result<(), Fail> {
    let cases = "0:
1:run
2:run c
3:run c --
0:walk c s
0:walk - -
0:--x run
1:run -
1:run - s
1:run --servers=2 c s
2:run c -x s -y
2:run c c
3:run c s a=x
3:run c s in:a
3:run c s i=n:a
3:run c s in:a=c
4:run c s in:a=x out:b=x
3:run -- c -
4:run -- c s -- in:a=x
4:run c s -- -
ok:run c s
ok:-- run c s
ok:run -- -c s
ok:run c s in:a=x out:b=y
ok:run c s in:a=
ok:run c s in:a=x=y";
    for case in cases.split('\n') {
        if let Some((number, line)) = case.split_once(':') {
            let words = words_of(rt.alloc(), line)?;
            if words.len() <= 512 {
                let answer = read(rt.alloc(), words.as_slice(), &[b"low".as_slice()]);
                assert_eq!(rt;
                    (case, number_of(&answer)),
                    (case, number.parse::<u32>().ok())
                );
            }
        }
    }
    Ok(())
}

// What is told of bindings: the word or the device at fault, or all files, with `.` where there is none.
fn told(alloc: Global, run: &Run<'_>) -> Result<String, AllocError> {
    let devices = [(b"a", true, false), (b"b", false, true), (b"c", true, true)].map(|(
        name,
        is_input,
        is_output,
    )| Device {
        name,
        is_input,
        is_output,
    });
    match bind(alloc, run.bindings.as_slice(), &devices) {
        Ok(bound) => {
            let mut text = String::from_str(alloc, "files")?;
            for files in bound {
                for file in [files.input, files.output] {
                    text.push(' ')?;
                    text.push_str(file.unwrap_or("."))?;
                }
            }
            Ok(text)
        }
        Err(BindFault::Word(number)) => format!(in alloc; "word {number}"),
        Err(BindFault::Unbound(number)) => format!(in alloc; "device {number}"),
        Err(BindFault::NoMemory) => Err(AllocError),
    }
}

/// A line has what is told of devices, of which `a` is an input, `b` an output and `c` both, and words.
#[test]
fn devices_have_files_or_are_at_fault(rt: HostRuntime) -> Result<(), Fail> {
    let cases = "files y . . z w x|run c s in:c=w out:c=x in:a=y out:b=z
files y=v . . -z  x|run -- c s in:a=y=v out:c=x out:b=-z in:c=
word 3|run c s in:b=x
word 3|run c s in:z=x
word 4|run c s in:a=x in:a=y
word 3|run c s in:=x
word 5|run -- c s in:c=x out:a=y
device 1|run c s
device 2|run c s in:a=x
device 3|run c s in:a=x out:b=y in:c=z";
    for case in cases.split('\n') {
        if let Some((wanted, line)) = case.split_once('|') {
            let words = words_of(rt.alloc(), line)?;
            if words.len() <= 512 {
                let run = read(rt.alloc(), words.as_slice(), &[b"low".as_slice()]).map_err(
                    |_| Fail::from("no command"),
                )?;
                assert_eq!(rt; (run.chain, run.script), ("c", "s"));
                assert_eq!(rt; told(rt.alloc(), &run)?.as_str(), wanted);
            }
        }
    }
    Ok(())
}
