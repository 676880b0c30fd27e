// Faults by document 01's numbers.
ghost use Rattle.std.specs.Prelude.{◌≡◌};
ghost use Rattle.answers.specs.Causes.{cause_number};
ghost use Rattle.bodies.specs.Faults.{cause_of, verdict_of};

use crate::Fault;
use answers::Verdict;
use answers::causes::Cause;

// A fault as a cause of refusal.
impl From<Fault> for Cause {
    ghost from_gives = { λ fault cause. cause_number cause ≡ cause_of fault };

    fn from(fault: Fault) -> Cause {
        match fault {
            Fault::NumberInUse => Cause::NumberInUse,
            Fault::BadExtension => Cause::BadExtension,
            Fault::Undefined => Cause::Undefined,
            Fault::WrongSort => Cause::WrongSort,
        }
    }
}

// The verdict of the test of a part at an offset.
pub fn verdict_of(tested: Result<(), Fault>, at: usize) -> Verdict
    ensures { result ≡ verdict_of at tested }
{
    match tested {
        Ok(()) => Ok(()),
        Err(fault) => Cause::from(fault).refused(at),
    }
}
