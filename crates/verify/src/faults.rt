// The numbers of what may be wrong with a change of the password.
ghost use Rattle.std.specs.Prelude.{◌≡◌};
ghost use Rattle.verify.specs.Faults.{fault_number, fault_with};

use crate::ChangeFault;

// A fault's place in the order in which they are told; 0 is none.
pub fn fault_number(fault: Option<ChangeFault>) -> u8
    ensures { result ≡ fault_number fault }
{
    match fault {
        Some(fault) => fault as u8,
        None => 0,
    }
}

// The fault of a number; none of any other.
pub fn fault_with(number: u8) -> Option<ChangeFault>
    ensures { result ≡ fault_with number }
{
    match number {
        1 => Some(ChangeFault::NoNtHash),
        2 => Some(ChangeFault::NoNtResponse),
        3 => Some(ChangeFault::LengthOver),
        4 => Some(ChangeFault::LengthOdd),
        5 => Some(ChangeFault::OldHashWrong),
        6 => Some(ChangeFault::ResponseWrong),
        7 => Some(ChangeFault::LmNotAllowed),
        8 => Some(ChangeFault::LengthOverLm),
        9 => Some(ChangeFault::HashAbsent),
        10 => Some(ChangeFault::HashWrong),
        _ => None,
    }
}
