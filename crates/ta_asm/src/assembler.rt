ghost use Rattle.std.specs.Prelude.{◌≡◌, ◌+◌, ◌<◌, ◌^◌, ◌⊎◌, length, Ok, Err, IfOk, IfErr};
ghost use Rattle.ta_isa.specs.declared.image.Image.{Image};
ghost use Rattle.ta_isa.specs.Spelling.{IsValid};
ghost use Rattle.ta_asm.specs.declared.fault.AsmFault.{AsmFault};
ghost use Rattle.ta_asm.specs.Grammar.{IsFirstFault, StandsFor};
ghost use Rattle.ta_asm.specs.Reading.{Answer};

use crate::fault::AsmFault;
use crate::labels::Labels;
use crate::program::Draft;
use crate::statements::Statements;
use std::alloc::Global;
use ta_isa::Image;

/// The image that a text of the assembler stands for, whose language `docs/formats.md` states; or its first fault,
/// where the least faulty line decides; or want of memory.
pub fn assemble(alloc: Global, text: &[u8]) -> Result<Image, AsmFault>
    requires { length text.now + 1 < 2 ^ 32 }
    // What is answered is what the text stands for.
    ensures found { IfOk result (λ image. StandsFor text.now image) }
    // It is valid.
    ensures valid { IfOk result IsValid }
    // A text that stands for an image is taken, unless memory runs out.
    ensures only { (image : Image) → StandsFor text.now image
        → (result ≡ Ok image) ⊎ (result ≡ Err AsmFault.Memory) }
    // A fault is the first one.
    ensures bad { IfErr result (λ fault. (fault ≡ AsmFault.Memory) ⊎ IsFirstFault text.now fault) }
    // A text with a fault is refused by its first one, unless memory runs out.
    ensures refused { (fault : AsmFault) → IsFirstFault text.now fault
        → (result ≡ Err fault) ⊎ (result ≡ Err AsmFault.Memory) }
{
    assembled(alloc, text)
}

fn assembled(alloc: Global, text: &[u8]) -> Result<Image, AsmFault>
    requires { length text.now + 1 < 2 ^ 32 }
    ensures { Answer text.now result }
{
    let labels = Labels::of(alloc, text)?;
    let mut statements = Statements::of(text);
    let mut draft = Draft::new(alloc);
    let mut lines = 0u32;
    while let Some(statement) = statements.next_statement() {
        draft.take(&labels, lines + 1, statement)?;
        lines += 1;
    }
    draft.finish(lines + 1)
}
