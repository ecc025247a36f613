//! Classes as text.
use mt_packet::{Cause, Field};
use mt_terms::{Classes, FieldWrite, OpCode, Part, Rewrite, Term, Tree};
use std::alloc::{AllocError, Global};
use std::fmt::Write;

/// A line for each class: the number of its boxes, and its tree.
pub fn classes(alloc: Global, classes: &Classes) -> Result<String, AllocError> {
    let mut out = String::new(alloc);
    for (region, of) in classes.list() {
        number(&mut out, region.boxes().len() as u64)?;
        out.push(' ')?;
        tree(&mut out, of)?;
        out.push('\n')?;
    }
    Ok(out)
}

fn number(out: &mut String, value: u64) -> Result<(), AllocError> {
    match write!(out, "{value}") {
        Ok(()) => Ok(()),
        Err(_) => Err(AllocError),
    }
}

/// A tree: `drop(CAUSE)`, `leaf(DEVICE,..)`, `test(TERM,LO-HI,TREE,TREE)` or `op(ELEMENT,INPUT,TERM,TERM,TERM,TERM,OUT:TREE,..)`.
fn tree(out: &mut String, of: &Tree) -> Result<(), AllocError> {
    match of {
        Tree::Drop(why) => {
            out.push_str("drop(")?;
            out.push_str(cause(*why))?;
        }
        Tree::Leaf(rewrite, device) => leaf(out, rewrite, *device)?,
        Tree::Test(of, span, inside, outside) => {
            out.push_str("test(")?;
            term(out, of)?;
            out.push(',')?;
            number(out, span.lo)?;
            out.push('-')?;
            number(out, span.hi)?;
            out.push(',')?;
            tree(out, inside)?;
            out.push(',')?;
            tree(out, outside)?;
        }
        Tree::Op(code, branches) => {
            op(out, code)?;
            for (output, of) in branches {
                out.push(',')?;
                number(out, u64::from(*output))?;
                out.push(':')?;
                tree(out, of)?;
            }
        }
    }
    out.push(')')
}

fn leaf(out: &mut String, rewrite: &Rewrite, device: u32) -> Result<(), AllocError> {
    out.push_str("leaf(")?;
    number(out, u64::from(device))?;
    if rewrite.trim {
        out.push_str(",trim")?;
    }
    for write in rewrite.writes.list() {
        out.push(',')?;
        out.push_str(field(write.field))?;
        out.push('=')?;
        term(out, &write.term)?;
    }
    Ok(())
}

fn op(out: &mut String, code: &OpCode) -> Result<(), AllocError> {
    out.push_str("op(")?;
    number(out, u64::from(code.element))?;
    out.push(',')?;
    number(out, u64::from(code.input))?;
    for of in [&code.sa, &code.sp, &code.da, &code.dp] {
        out.push(',')?;
        term(out, of)?;
    }
    Ok(())
}

fn term(out: &mut String, of: &Term) -> Result<(), AllocError> {
    match of {
        Term::Const(value) => {
            out.push_str("const(")?;
            number(out, *value)?;
        }
        Term::Entry(of) => {
            out.push_str("entry(")?;
            out.push_str(field(*of))?;
        }
        Term::Less(of, amount) => {
            out.push_str("less(")?;
            term(out, of)?;
            out.push(',')?;
            number(out, *amount)?;
        }
        Term::Flow(passage, of) => {
            out.push_str("flow(")?;
            number(out, u64::from(*passage))?;
            out.push(',')?;
            out.push_str(part(*of))?;
        }
    }
    out.push(')')
}

fn part(of: Part) -> &'static str {
    match of {
        Part::Sa => "sa",
        Part::Sp => "sp",
        Part::Da => "da",
        Part::Dp => "dp",
    }
}

fn cause(why: Cause) -> &'static str {
    match why {
        Cause::Discarded => "Discarded",
        Cause::NoPaint => "NoPaint",
        Cause::Classified => "Classified",
        Cause::Short => "Short",
        Cause::BadIp => "BadIp",
        Cause::Ttl => "Ttl",
        Cause::Filtered => "Filtered",
        Cause::NoRoute => "NoRoute",
        Cause::Unported => "Unported",
        Cause::Unmapped => "Unmapped",
        Cause::Exhausted => "Exhausted",
        Cause::Clash => "Clash",
    }
}

fn field(of: Field) -> &'static str {
    match of {
        Field::Device => "device",
        Field::EthType => "eth_type",
        Field::EthDst => "eth_dst",
        Field::EthSrc => "eth_src",
        Field::ArpOp => "arp_op",
        Field::Proto => "proto",
        Field::Src => "src",
        Field::Dst => "dst",
        Field::Dscp => "dscp",
        Field::Ecn => "ecn",
        Field::Sport => "sport",
        Field::Dport => "dport",
        Field::IcmpType => "icmp_type",
        Field::IpOk => "ip_ok",
        Field::Ports => "ports",
        Field::Mf => "mf",
        Field::FragOff => "frag_off",
        Field::Ttl => "ttl",
        Field::Syn => "syn",
        Field::Ack => "ack",
        Field::Fin => "fin",
        Field::Rst => "rst",
        Field::Paint => "paint",
        Field::Annotation => "annotation",
    }
}
