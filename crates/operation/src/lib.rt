// The operand decoder: the payload of a field 05, read to an operation or to its fault.
#![tactic(auto)]

ghost use Rattle.std.specs.Prelude.{◌≡◌, IfOk};
ghost use Rattle.faults.specs.Faults.{fault_or_0};
ghost use Rattle.operation.specs.Operation.{operands, contents_fault, operation_of};

mod lengths;

use crate::lengths::{moved, too_long};
use block::{BOp, Memory};
use faults::Fault;
use operands::{byte, fast_of, get32, shape_of};

// As many numbers as a kind may have.
fn operands_of(p: &[u8]) -> [u32; 6]
    ensures { result ≡ operands p.now }
{
    [
        get32(p, 3),
        get32(p, 7),
        get32(p, 11),
        get32(p, 15),
        get32(p, 19),
        get32(p, 23),
    ]
}

// Kind, guest length, glue and operands of a payload, which is lent as a part of the record: `&s[from..end]`. A group is held to the
// lengths of RAM and XIP.
pub fn decode(m: Memory, p: &[u8]) -> Result<BOp, Fault>
    ensures fault { fault_or_0 result ≡ contents_fault m p.now }
    ensures operation { IfOk result (λ o. o ≡ operation_of p.now) }
{
    if p.len() < 3 {
        return Err(Fault::Field);
    }
    let kind = byte(p, 0);
    if 50 <= kind {
        return Err(Fault::Kind);
    }
    let x = operands_of(p);
    let shape = shape_of(kind, x);
    if p.len() != 3 + 4 * shape.count {
        return Err(Fault::Field);
    }
    let glue = byte(p, 2);
    if 1 < glue {
        return Err(Fault::Operand);
    }
    if !shape.fit {
        return Err(Fault::Operand);
    }
    if too_long(m, moved(kind, x)) {
        return Err(Fault::Operand);
    }
    Ok(BOp {
        fast: fast_of(kind, x),
        len: byte(p, 1),
        glue: glue != 0,
    })
}
