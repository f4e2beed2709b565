ghost use Rattle.std.specs.Prelude.{◌≡◌};
ghost use Rattle.native_tas.specs.Relation.{answer_of};
ghost use Rattle.native_tas.specs.DriverRelation.{driver_answer};
ghost use Rattle.native_tas.specs.declared.relation.Relation.TheVariants.{Digest};
ghost use Rattle.native_tas.specs.declared.driver_relation.DriverRelation.TheVariants.{Echo};

use crate::digesting::digest;
use crate::driver::Driver;
use crate::driver_relation::DriverRelation;
use crate::native::Native;
use crate::relation::Relation;
use ta_params::CopiedParams;
use uuid::Uuid;

/// `digest` can be kept beside its relation, and is then called by it.
pub fn digest_of_a_native(command: u32, params: &mut CopiedParams) -> u32
    ensures { (result, params.new) ≡ answer_of Digest command params.old }
{
    let native = Native {
        uuid: Uuid::nil(),
        relation: Relation::Digest,
        call: digest,
    };
    native.answer(command, params)
}

/// A function that gives its number back can be kept beside Echo, and is then called by it.
pub fn echo_of_a_driver(count: u32) -> u32
    ensures { result ≡ driver_answer Echo count }
{
    let driver = Driver {
        value: 1,
        relation: DriverRelation::Echo,
        call: |count: u32| count,
    };
    driver.answer(count)
}
