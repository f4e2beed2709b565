//! What holds of the definitions themselves.
ghost use Rattle.std.specs.Prelude.{◌≡◌, ℕ, ◌^◌, ◌<◌, IsTrue};
ghost use Rattle.ta_isa.specs.declared.image.Image.{Image as AnyImage};
ghost use Rattle.ta_isa.specs.declared.image.Instr.{Instr as AnyInstr};
ghost use Rattle.ta_isa.specs.Examples.{Examples};
ghost use Rattle.ta_isa.specs.InstructionTable.{HasFields, is_instruction};
ghost use Rattle.ta_isa.specs.Spelling.{IsValid, spelling};

/// Bytes spell at most one valid image.
pub fn one_image()
    ensures { (x y : AnyImage) → IsValid x → IsValid y → spelling x ≡ spelling y → x ≡ y }
{}

/// The registers of an instruction that an image may have are registers that there are.
pub fn instruction_fields()
    ensures { (count : ℕ) (i : AnyInstr) → count < 2 ^ 32 → IsTrue (is_instruction count i)
        → HasFields i }
{}

/// Examples of the definitions, worked out by hand.
#[tactic(auto, unfolding(crate::specs::InstructionTable::is_instruction, crate::specs::Spelling::are_allowed, crate::specs::Reading::word_at, crate::specs::Reading::front_instruction))]
pub fn worked_examples()
    ensures { Examples }
{}
