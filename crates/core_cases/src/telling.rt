//! What is told beside the lines that `answer_lines` makes.
use answer_lines::push_ret;
use core_machine::{Machine, Told};
use std::alloc::AllocError;
use std::io::{self, Write};

/// Tells each of these exits.
pub fn tell_answers(answers: &[Told], told: &mut Vec<u8>) -> Result<(), AllocError> {
    for answer in answers {
        push_ret(told, answer.cpu, &answer.regs)?;
    }
    Ok(())
}

/// Tells how a core stands.
pub fn tell_stand(machine: &Machine, told: &mut Vec<u8>) -> io::Result<()> {
    let core = machine.core();
    let inside = (0..machine.cpus()).filter(|cpu| core.inside(*cpu)).count();
    writeln!(
        told,
        "{} events, {} bytes read, {} free slots, {} free pages, {inside} inside",
        core.event_count(),
        core.copied(),
        core.free_slots(),
        core.free_pages()
    )
}
