//! What the definitions say of the format as a whole.

ghost use Rattle.std.specs.Prelude.{◌≡◌, ◌<◌, ◌↔◌, ℕ, List, IsTrue, Ok, slice_index};
ghost use Rattle.msg_args.specs.declared.head.MsgHead.{MsgHead};
ghost use Rattle.msg_args.specs.declared.param.MsgParam.{MsgParam};
ghost use Rattle.msg_args.specs.declared.arg.MsgArg.{MsgArg};
ghost use Rattle.msg_args.specs.Attribute.{attribute, is_attribute, IsAllowed};
ghost use Rattle.msg_args.specs.Spelling.{head_bytes, spelling, FitsHead, IsArgument, Spells};
ghost use Rattle.msg_args.specs.Reading.{head_at, argument};
ghost use Rattle.msg_args.specs.Examples.{Examples};

/// An argument has one spelling, and bytes spell at most one argument.
pub fn one_spelling()
    // What was written is read again.
    ensures reads_back { (arg : MsgArg) → IsArgument arg → argument (spelling arg) ≡ Ok arg }
    // What was read is written again.
    ensures writes_back { (bytes : List ℕ) (arg : MsgArg) → ((i : ℕ) → slice_index bytes i < 256)
        → argument bytes ≡ Ok arg → spelling arg ≡ bytes }
    ensures at_most_one { (bytes : List ℕ) (a b : MsgArg) → Spells bytes a → Spells bytes b → a ≡ b }
    ensures heads { (head : MsgHead) → FitsHead head → head_at (head_bytes head) ≡ head }
    // The valid attributes are those that parameters have.
    ensures attributes { (n : ℕ) → IsTrue (is_attribute n)
        ↔ ((param : MsgParam) × IsAllowed param × (attribute param ≡ n)) }
{}

/// The definitions, tried on arguments that are worked out by hand.
pub fn worked_examples()
    ensures { Examples }
{}
