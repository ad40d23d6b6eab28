// Clauses 6.2.2 and 6.8: the Transfer Frame Primary Header, and its values that are valid whatever the receiver.
#![tactic(auto)]

ghost use Rattle.std.specs.Prelude.{◌≡◌};
ghost use Rattle.frame_header.specs.Header.{valid_header};

// Clause 6.2.2.1: the octets of a header.
pub const HEADER_LENGTH: usize = 5;

// Whether octets begin with a valid header, refusal 6 of document 01 with document 02's order 10 where not. The rest of them is not
// looked at.
pub fn valid(octets: &[u8]) -> bool
    ensures { result ≡ valid_header octets.now }
{
    if octets.len() < HEADER_LENGTH {
        return false;
    }
    let (first, number) = (octets[0], octets[4]);
    first / 64 == 0
        && first / 4 % 4 == 0
        && first / 16 % 4 != 1
        && (first / 32 % 2 == 0 || number == 0)
}
