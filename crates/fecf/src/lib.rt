// Clause 6.2.4: the Frame Error Control Field, octet by octet through a table.
#![tactic(auto)]

mod entries;

ghost use Rattle.std.specs.Prelude.{◌≡◌, ◌/◌};
ghost use Rattle.std.specs.Int.Bits.{bit_xor};
ghost use Rattle.base.specs.Register.{shift_bits};
ghost use Rattle.fecf.specs.Fecf.{generator, fecf_of};
ghost use Rattle.fecf.specs.Table.{Rule};

use crate::entries::TABLE;

// The place of the entry: the register's upper octet, with the octet added.
fn place(register: u16, octet: u8) -> u16
    ensures { result ≡ bit_xor (register / 256) octet }
{
    (register / 256) ^ u16::from(octet)
}

// The eight bits of an octet into the register: its lower octet moves up, and the entry is added.
fn shift_octet(table: &[u16; 256], register: u16, octet: u8) -> u16
    requires { Rule table.now }
    ensures { result ≡ shift_bits 15 generator 8 register octet }
{
    (register % 256 * 256) ^ table[usize::from(place(register, octet))]
}

// The FECF of the octets before it. The table is lent, so that it is not made anew at each octet.
fn fecf_by_table(table: &[u16; 256], message: &[u8]) -> u16
    requires { Rule table.now }
    ensures { result ≡ fecf_of message.now }
{
    let mut register: u16 = 0xFFFF;
    for octet in message {
        register = shift_octet(table, register, *octet);
    }
    register
}

// The FECF of the octets before it.
pub fn fecf(message: &[u8]) -> u16
    ensures { result ≡ fecf_of message.now }
{
    fecf_by_table(&TABLE, message)
}
