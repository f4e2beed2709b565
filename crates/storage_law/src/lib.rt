//! What the normal world has to have brought before a read of an object whose file has a tag ends well, and before a write of one
//! asks for anything to be written: all the data, and the tag of just these. What is then written as a tag is that of the new data.
//!
//! Whatever the normal world answers: the laws are about the definition of a call on an object, which `ObjectState` of
//! `tee_storage` gives the steps of.
//!
//! Nothing here touches RAM, a port or a thread.
//!
//! # What is proved
//!
//! Of each call on an object by the definition of `tee_storage`, whatever the normal world answers:
//! - A read of some bytes of an object whose file has a tag ends with SUCCESS only behind replies that have brought all
//!   of the object's data, and then, by the last of the answers, their tag (`reads_end_behind_their_tag`): the HMAC,
//!   under the boot's key, of the file's name, a zero, the object's length and these data.
//! - A write to such an object asks for no FsWrite before such replies (`writes_wait_for_the_tag`). What it then asks
//!   to be written behind the new data is their tag (`written_tags_are_of_the_new_data`). Where it ends with SUCCESS
//!   and has some bytes, it has asked for that (`writes_that_end_well_have_tagged`).
//!
//! That nobody without the key makes such a tag is no clause. The crate's functions have no body.
#![tactic(auto)]

mod laws;

pub use laws::{
    reads_end_behind_their_tag, worked_examples, writes_that_end_well_have_tagged,
    writes_wait_for_the_tag, written_tags_are_of_the_new_data,
};
