ghost use Rattle.std.specs.Prelude.{◌≡◌};
ghost use Rattle.native_tas.specs.Relation.{answer_of, digested};
ghost use Rattle.native_tas.specs.declared.relation.Relation.TheVariants.{Digest as DigestRelation};

use sha2::{Digest, Sha256};
use ta_params::codes::{TEE_ERROR_BAD_PARAMETERS, TEE_ERROR_SHORT_BUFFER, TEE_SUCCESS};
use ta_params::{CopiedParams, GpParam};

/// How many bytes a SHA-256 digest has, by FIPS 180-4.
const DIGEST_SIZE: usize = 32;

/// The types of the parameters of a digest, as `TEE_PARAM_TYPES` packs them: a memref for input, a memref
/// for output, and nothing else.
const DIGEST_TYPES: u32 = 0x0065;

/// The digest application: command 0 with a memref for input and one for output writes the SHA-256 of the
/// first buffer to the front of the second. Takes no memory.
///
/// The second size becomes 32, also where the buffer is shorter, which is `TEE_ERROR_SHORT_BUFFER`. Another
/// command or other types are `TEE_ERROR_BAD_PARAMETERS`. All else in the parameters stays.
pub fn digest(func: u32, params: &mut CopiedParams) -> u32
    ensures { (result, params.new) ≡ answer_of DigestRelation func params.old }
{
    if func != 0 || params.type_word() != DIGEST_TYPES {
        return TEE_ERROR_BAD_PARAMETERS;
    }
    let GpParam::Memref { buf: message, .. } = &params.p0 else {
        unreachable!()
    };
    let GpParam::Memref { buf, size, .. } = &mut params.p1 else {
        unreachable!()
    };
    *size = DIGEST_SIZE as u32;
    write_digest(message.bytes(), buf.bytes_mut())
}

/// Writes the digest of the message to the front of an output that holds it.
fn write_digest(message: &[u8], output: &mut [u8]) -> u32
    ensures { (result, output.new) ≡ digested message.now output.old }
{
    if output.len() < DIGEST_SIZE {
        return TEE_ERROR_SHORT_BUFFER;
    }
    let digest = Sha256::digest(message);
    output[..DIGEST_SIZE].copy_from_slice(&digest);
    TEE_SUCCESS
}
