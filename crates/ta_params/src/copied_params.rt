ghost use Rattle.std.specs.Prelude.{◌≡◌, ◌<◌};
ghost use Rattle.ta_params.specs.CopiedParams.{param_type, type_word};

use crate::buf::Buf;
use crate::codes::*;
use std::alloc::AllocError;

/// Which way a parameter goes, seen from the application.
#[derive(Clone, Copy, Debug, PartialEq, Eq)]
pub enum Way {
    In,
    Out,
    Inout,
}

/// A parameter of a call, as the application has it: two numbers, or bytes of its own.
#[derive(Debug, Drop)]
pub enum GpParam {
    Empty,
    Value {
        way: Way,
        a: u32,
        b: u32,
    },
    Memref {
        way: Way,
        buf: Buf,
        /// The size that the client is told, which the application may set to any number.
        size: u32,
    },
}

impl GpParam {
    /// The type of the parameter, as `TEE_PARAM_TYPE_VALUE_INPUT`.
    fn param_type(&self) -> u32
        ensures value { result ≡ param_type self.now }
        ensures four_bits { result < 16 }
    {
        match self {
            GpParam::Empty => TEE_PARAM_TYPE_NONE,
            GpParam::Value { way, .. } => match way {
                Way::In => TEE_PARAM_TYPE_VALUE_INPUT,
                Way::Out => TEE_PARAM_TYPE_VALUE_OUTPUT,
                Way::Inout => TEE_PARAM_TYPE_VALUE_INOUT,
            },
            GpParam::Memref { way, .. } => match way {
                Way::In => TEE_PARAM_TYPE_MEMREF_INPUT,
                Way::Out => TEE_PARAM_TYPE_MEMREF_OUTPUT,
                Way::Inout => TEE_PARAM_TYPE_MEMREF_INOUT,
            },
        }
    }
}

impl Clone for GpParam {
    ghost is_clone = { λ param copy. copy ≡ param };

    fn clone(&self) -> Result<GpParam, AllocError> {
        Ok(match self {
            GpParam::Empty => GpParam::Empty,
            GpParam::Value { way, a, b } => GpParam::Value {
                way: *way,
                a: *a,
                b: *b,
            },
            GpParam::Memref { way, buf, size } => GpParam::Memref {
                way: *way,
                buf: buf.clone()?,
                size: *size,
            },
        })
    }
}

/// The four parameters of a call, copied out of shared memory.
#[derive(Drop)]
pub struct CopiedParams {
    pub p0: GpParam,
    pub p1: GpParam,
    pub p2: GpParam,
    pub p3: GpParam,
}

impl Clone for CopiedParams {
    ghost is_clone = { λ params copy. copy ≡ params };

    fn clone(&self) -> Result<CopiedParams, AllocError> {
        Ok(CopiedParams {
            p0: self.p0.clone()?,
            p1: self.p1.clone()?,
            p2: self.p2.clone()?,
            p3: self.p3.clone()?,
        })
    }
}

impl CopiedParams {
    /// Four that are empty.
    pub fn none() -> CopiedParams
        ensures { result ≡ record { p0 = GpParam.Empty; p1 = GpParam.Empty; p2 = GpParam.Empty; p3 = GpParam.Empty } }
    {
        CopiedParams {
            p0: GpParam::Empty,
            p1: GpParam::Empty,
            p2: GpParam::Empty,
            p3: GpParam::Empty,
        }
    }

    /// The types of the four parameters in one word, the first in the lowest four bits, as the macro
    /// `TEE_PARAM_TYPES` of the TEE Internal Core API packs them.
    pub fn type_word(&self) -> u32
        ensures { result ≡ type_word self.now }
    {
        self.p0.param_type()
            + (self.p1.param_type() << 4)
            + (self.p2.param_type() << 8)
            + (self.p3.param_type() << 12)
    }
}
