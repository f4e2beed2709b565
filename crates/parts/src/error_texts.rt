//! What errors print.

use anyhow::Result;
use base::NoMemory;
use msg_args::Misshapen;
use ns_ram::WalkFault;
use param_copy::CopyFault;
use rpc_msgs::FileNameFault;
use shm_registry::{RegisterFault, ResolveFault, UnregisterFault};
use smc_abi::Regs;
use smc_port::PortRefusal;
use std::alloc::{AllocError, Global};
use std::fmt::{Debug, Display, Write};
use ta_isa::ImageFault;
use teec::TeecFault;

/// Tells each of these errors, and its text.
fn tell<T: Debug + Display>(told: &mut String, errors: &[T]) -> Result<(), AllocError> {
    for error in errors {
        writeln!(told, "{error:?}: {error}")?;
    }
    Ok(())
}

/// Tells those of memory and arguments.
fn tell_of_arguments(told: &mut String) -> Result<(), AllocError> {
    tell(told, &[NoMemory])?;
    tell(
        told,
        &[Misshapen::Length, Misshapen::Count(7), Misshapen::Attr(1)],
    )?;
    tell(
        told,
        &[
            CopyFault::TooLong(2),
            CopyFault::Range(2),
            CopyFault::Page(2, 1),
        ],
    )?;
    tell(told, &[WalkFault::BadPage(531)])?;
    tell(told, &[ImageFault::BadEntry(2)])
}

/// Tells those of files and registered buffers.
fn tell_of_buffers(told: &mut String) -> Result<(), AllocError> {
    tell(told, &[FileNameFault::TooLong, FileNameFault::NotAscii])?;
    tell(told, &[RegisterFault::Repeated(0x31), RegisterFault::Full])?;
    tell(
        told,
        &[UnregisterFault::Unknown, UnregisterFault::Pinned(3)],
    )?;
    tell(
        told,
        &[
            ResolveFault::Unknown,
            ResolveFault::Range,
            ResolveFault::Memory,
        ],
    )
}

/// Tells those of ports and clients.
fn tell_of_clients(told: &mut String) -> Result<(), AllocError> {
    tell(told, &[PortRefusal::Spent, PortRefusal::Memory])?;
    tell(
        told,
        &[
            TeecFault::Retried(3),
            TeecFault::Rounds(2),
            TeecFault::Strange(Regs { a: [4; 8] }),
            TeecFault::Spent,
            TeecFault::Memory,
        ],
    )
}

/// Each error, and its text.
pub(crate) fn told(alloc: Global) -> Result<String> {
    let mut told = String::new(alloc);
    tell_of_arguments(&mut told)?;
    tell_of_buffers(&mut told)?;
    tell_of_clients(&mut told)?;
    Ok(told)
}
