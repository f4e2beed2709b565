//! What other forms of records share with this one: what stands in a body, the records of a boot and of its applications,
//! and the front of the bytes.

pub use crate::body::{body_len, long_at, word_at};
pub use crate::reading::front_fault;
pub use crate::record_kind::RecordKind;
pub use crate::taking::{take_boot, take_key, take_ta};
pub use crate::writing::{put_apps, put_boot, put_counted, put_key, put_long};
pub use ta_isa::put_word;
