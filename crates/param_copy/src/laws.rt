//! Laws over the definitions of `specs/`, each the contract of a function that does nothing.

ghost use Rattle.std.specs.Prelude.{ℕ, List};
ghost use Rattle.std.specs.List.{AllByRecursion};
ghost use Rattle.base.specs.NumberMap.{NumberMap};
ghost use Rattle.msg_args.specs.declared.param.MsgParam.{MsgParam};
ghost use Rattle.ns_ram.specs.Writes.{IsWriteOfRam};
ghost use Rattle.shm_registry.specs.declared.page_buffer.PageBuffer.{PageBuffer};
ghost use Rattle.shm_registry.specs.Pieces.{IsBuffer};
ghost use Rattle.ta_params.specs.declared.copied_params.CopiedParams.{CopiedParams};
ghost use Rattle.param_copy.specs.declared.copied.Place.{Place};
ghost use Rattle.param_copy.specs.Examples.{Examples};
ghost use Rattle.param_copy.specs.Memory.{HaveSize, rmem_pieces, tmem_pieces, tmem_size};
ghost use Rattle.param_copy.specs.Places.{IsWritable};
ghost use Rattle.param_copy.specs.WritingBack.{writes_back};

/// The pieces of memory lie in RAM, and their lengths sum to its size.
pub fn pieces_have_the_size()
    ensures registered { (buffers : NumberMap PageBuffer) (number : ℕ) (param : MsgParam)
        → AllByRecursion (λ kept. IsBuffer kept.1) buffers
        → HaveSize (rmem_pieces buffers number param) param.q }
    ensures named { (number : ℕ) (param : MsgParam)
        → HaveSize (tmem_pieces number param) (tmem_size param) }
{}

/// What is written back of parameters whose places lie in RAM lies in RAM.
pub fn writes_back_lie_in_ram()
    ensures { (arg : ℕ) (places : List Place) (params : CopiedParams)
        → AllByRecursion (IsWritable arg) places
        → AllByRecursion IsWriteOfRam (writes_back arg places params) }
{}

/// Parameters copied out of small lanes, and what is written back.
pub fn worked_examples()
    ensures { Examples }
{}
