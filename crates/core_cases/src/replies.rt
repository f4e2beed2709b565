//! What is printed of a session's reply.
use own_model::OwnReply;
use rpc_msgs::Rpc;
use std::alloc::{AllocError, Global};
use ta_params::{Buf, CopiedParams, GpParam};

/// These bytes with a blank before them, or nothing.
fn bytes_text(alloc: Global, bytes: &Buf) -> Result<String, AllocError> {
    if bytes.bytes().is_empty() {
        return Ok(String::new(alloc));
    }
    let digits = hex::encode(alloc, bytes.bytes())?;
    Ok(format!(in alloc; " {digits}")?)
}

/// What comes back in a parameter, with a blank before it, or nothing.
fn param_text(alloc: Global, param: &GpParam) -> Result<String, AllocError> {
    Ok(match param {
        GpParam::Empty => String::new(alloc),
        GpParam::Value { a, b, .. } => format!(in alloc; " value {a} {b}")?,
        GpParam::Memref { buf, size, .. } => {
            let bytes = bytes_text(alloc, buf)?;
            format!(in alloc; " bytes {size}{bytes}")?
        }
    })
}

/// What comes back in four parameters.
fn outputs_text(alloc: Global, outputs: &CopiedParams) -> Result<String, AllocError> {
    let mut text = String::new(alloc);
    for param in [&outputs.p0, &outputs.p1, &outputs.p2, &outputs.p3] {
        text.push_str(param_text(alloc, param)?.as_str())?;
    }
    Ok(text)
}

/// What is asked for. The name of a file is the payload, too.
fn request_text(alloc: Global, rpc: &Rpc) -> Result<String, AllocError> {
    Ok(match rpc {
        Rpc::Time => format!(in alloc; "time")?,
        Rpc::Sleep(key) => format!(in alloc; "sleep {key}")?,
        Rpc::Wake(key) => format!(in alloc; "wake {key}")?,
        Rpc::Suspend(ms) => format!(in alloc; "suspend {ms}")?,
        Rpc::FsOpen(_) => format!(in alloc; "open")?,
        Rpc::FsCreate(_) => format!(in alloc; "create")?,
        Rpc::FsClose(fd) => format!(in alloc; "close {fd}")?,
        Rpc::FsRead { fd, offset, len } => format!(in alloc; "read {fd} {offset} {len}")?,
        Rpc::FsWrite { fd, offset, len } => format!(in alloc; "write {fd} {offset} {len}")?,
        Rpc::FsRemove(_) => format!(in alloc; "remove")?,
    })
}

/// The line of a reply: `alloc`, `sleep`, `wake CALL`, `ask REQUEST PAYLOAD`, `free`, `ended RESULT ORIGIN OUTPUTS` or
/// `limited`. Bytes and the result are hexadecimal, other numbers decimal.
pub fn line_of(alloc: Global, reply: &OwnReply) -> Result<String, AllocError> {
    Ok(match reply {
        OwnReply::Alloc => format!(in alloc; "alloc")?,
        OwnReply::Sleep => format!(in alloc; "sleep")?,
        OwnReply::Wake { call } => format!(in alloc; "wake {call}")?,
        OwnReply::Ask { rpc, payload } => {
            let request = request_text(alloc, rpc)?;
            let payload = bytes_text(alloc, payload)?;
            format!(in alloc; "ask {request}{payload}")?
        }
        OwnReply::Free => format!(in alloc; "free")?,
        OwnReply::Ended {
            result,
            origin,
            outputs,
        } => {
            let outputs = outputs_text(alloc, outputs)?;
            format!(in alloc; "ended {result:08x} {origin}{outputs}")?
        }
        OwnReply::Limited => format!(in alloc; "limited")?,
    })
}
