// Fields 05: the operations.
ghost use Rattle.std.specs.Prelude.{◌≡◌, ◌≤◌, length, IfOk};
ghost use Rattle.faults.specs.Faults.{fault_or_0};
ghost use Rattle.operation.specs.Operation.{operation_of};
ghost use Rattle.record.specs.Record.{payload, operation_fault};

use block::{BOp, Memory};
use faults::Fault;
use fields::cut;
use operands::{byte, get16};
use operation::decode;

// The field at `at` of a block with this memory, with n operations before it of which the last jumps if `jumped`.
pub fn read_operation(m: Memory, s: &[u8], at: usize, n: u32, jumped: bool) -> Result<BOp, Fault>
    requires { at ≤ length s.now }
    ensures fault { fault_or_0 result ≡ operation_fault m s.now at n jumped }
    ensures operation { IfOk result (λ o. o ≡ operation_of (payload s.now at)) }
{
    cut(s, at)?;
    if byte(s, at) != 5 {
        return Err(Fault::Field);
    }
    if 32 <= n {
        return Err(Fault::TooMany);
    }
    if jumped {
        return Err(Fault::AfterJump);
    }
    let from = at + 3;
    let end = from + get16(s, at + 1) as usize;
    decode(m, &s[from..end])
}
