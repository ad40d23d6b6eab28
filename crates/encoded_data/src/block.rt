// Clauses 8.2, 8.5 and 8.8: one codeblock. Its error control octet, by tables, and which bit of a received one is wrong.
ghost use Rattle.std.specs.Prelude.{◌≡◌, ◌*◌, ◌/◌, ◌%◌, ◌<◌, ◌≤◌, length, take};
ghost use Rattle.base.specs.Register.{shift_bits};
ghost use Rattle.codeblock.specs.Codeblock.{generator, error_control, flipped, judged};
ghost use Rattle.codeblock.specs.Table.{share_of, bit_for, numbered, judged_by};

use crate::table::{NO_BIT, Tables};
use codeblock::Mode;

impl Tables<'_> {
    // The share of an octet with n octets behind it in the error control octet.
    fn share(self, n: usize, octet: u8) -> u8
        requires { n < 2 }
        ensures { result ≡ share_of n octet }
    {
        self.shares[256 * n + usize::from(octet)]
    }

    // The parity check bits with an octet more, a place up as the error control octet has them.
    fn next_parity(self, parity: u8, octet: u8) -> u8
        requires { parity % 2 ≡ 0 }
        ensures { result ≡ shift_bits 6 generator 8 (parity / 2) octet * 2 }
    {
        self.share(0, parity ^ octet)
    }

    // And with two octets more, whose entries do not wait for each other.
    fn next_two(self, parity: u8, first: u8, second: u8) -> u8
        requires { parity % 2 ≡ 0 }
        ensures { result ≡ shift_bits 6 generator 8 (shift_bits 6 generator 8 (parity / 2) first) second * 2 }
    {
        self.share(1, parity ^ first) ^ self.share(0, second)
    }

    // The error control octet of seven octets of information.
    pub(crate) fn control_of(self, information: &[u8]) -> u8
        requires { 7 ≤ length information.now }
        ensures { result ≡ error_control (take 7 information.now) }
    {
        let two = self.next_two(0, information[0], information[1]);
        let four = self.next_two(two, information[2], information[3]);
        let six = self.next_two(four, information[4], information[5]);
        self.next_parity(six, information[6]) ^ 0xFE
    }

    // The error control octet of any octets, one by one.
    fn control_by(self, information: &[u8]) -> u8
        ensures { result ≡ error_control information.now }
    {
        let mut parity: u8 = 0;
        for octet in information {
            parity = self.next_parity(parity, *octet);
        }
        parity ^ 0xFE
    }

    // The bit, of the first 63, that alone gives a syndrome.
    fn bit_for(self, syndrome: u8) -> Option<u8>
        ensures { result ≡ numbered (bit_for 63 0 syndrome) }
    {
        if syndrome % 2 != 0 {
            return None;
        }
        match self.bits[usize::from(syndrome / 2)] {
            NO_BIT => None,
            bit => Some(bit),
        }
    }

    // Which bit of a codeblock is wrong, by its syndrome: none where that is zero, else the one that the mode corrects; None where the codeblock is bad.
    pub(crate) fn wrong_bit(self, block: &[u8], mode: Mode) -> Option<Option<u8>>
        requires { length block.now ≡ 8 }
        ensures { judged mode block.now ≡ judged_by result block.now }
    {
        let syndrome = block[7] ^ self.control_of(block);
        if syndrome == 0 {
            return Some(None);
        }
        match mode {
            Mode::Detecting => None,
            Mode::Correcting => self.bit_for(syndrome).map(Some),
        }
    }
}

// The error control octet of the information, which in a codeblock has seven octets.
pub fn error_control(information: &[u8]) -> u8
    ensures { result ≡ error_control information.now }
{
    Tables::new().control_by(information)
}

// Inverts a bit of octets; changes nothing where they do not have it.
pub(crate) fn invert(octets: &mut [u8], bit: u8)
    ensures { octets.new ≡ flipped bit octets.old }
{
    let octet = usize::from(bit / 8);
    if octet < octets.len() {
        octets[octet] ^= 0x80 >> (bit % 8);
    }
}
