// The codeblocks of information, written into lent output (clause 8.3, Encoded Data).
ghost use Rattle.std.specs.Prelude.{◌≡◌, ◌*◌, ◌/◌, ◌≤◌, length};
ghost use Rattle.memory.specs.Placed.{placed};
ghost use Rattle.encoded_data.specs.EncodedData.{encoded};

use crate::table::Tables;

impl Tables<'_> {
    // Puts the codeblocks of the information to the front of the output, one a turn: its seven octets of information and its error control octet.
    fn put_codeblocks(self, information: &[u8], out: &mut [u8])
        requires { 8 * (length information.now / 7) ≤ length out.old }
        ensures { out.new ≡ placed out.old 0 (encoded (length information.now / 7) information.now) }
    {
        for (n, seven) in information.chunks_exact(7).enumerate() {
            out[8 * n..8 * n + 7].copy_from_slice(seven);
            out[8 * n + 7] = self.control_of(seven);
        }
    }
}

// Puts the codeblocks of the information, seven octets each, to the front of the output; changes nothing where they do not fit.
pub fn encode(information: &[u8], out: &mut [u8])
    ensures { out.new ≡ placed out.old 0 (encoded (length information.now / 7) information.now) }
{
    if information.len() / 7 <= out.len() / 8 {
        Tables::new().put_codeblocks(information, out);
    }
}
