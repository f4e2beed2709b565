ghost use Rattle.std.specs.Prelude.{◌≡◌, ◌≢◌, ◌≤◌, ◌↔◌, [], ◌∷◌, ◌++◌, length, map, position, false, true, Err, OnOk, OnErr, AllPairs, All, IsTrue, IfOk};
ghost use Rattle.std.specs.Option.{option_copied, option_map};
ghost use Rattle.std.specs.Str.{bytes_eq};
ghost use Rattle.std.proofs.Props.{props};
ghost use Rattle.native_tas.specs.Native.{entry_of, find_entry, has};
ghost use Rattle.native_tas.specs.DriverRelation.{is_driver_value};
ghost use Rattle.native_tas.specs.declared.natives.AddFault.TheVariants.{Full, Repeated};
ghost use Rattle.native_tas.specs.declared.natives.DriverFault.TheVariants.{Range, Repeated as RepeatedDriver};

use crate::driver::Driver;
use crate::native::Native;
use crate::native_app::NativeApp;
use arrayvec::ArrayVec;
use std::alloc::{AllocError, Global};
use uuid::Uuid;

/// The most native applications that are kept.
pub const MAX_NATIVES: usize = 16;

/// Why an application was not added.
#[derive(Clone, Copy, Debug, PartialEq, Eq)]
pub enum AddFault {
    /// An application with this UUID is kept.
    Repeated,
    /// As many as may be are kept.
    Full,
    Memory,
}

/// The highest value of a driver. The lowest is 1, since value 0 of OP-TEE's asynchronous notifications is
/// `OPTEE_SMC_ASYNC_NOTIF_VALUE_DO_BOTTOM_HALF`.
pub const MAX_DRIVER_VALUE: u32 = 63;

/// Why a driver was not added.
#[derive(Clone, Copy, Debug, PartialEq, Eq)]
pub enum DriverFault {
    /// Its value is not from 1 to 63.
    Range,
    /// A driver with this value is kept.
    Repeated,
    Memory,
}

/// The functions of the program that a kernel is given: the native applications, each with a UUID of its own,
/// and the drivers, each with a value of its own, in the order in which they were added. Contracts see the list
/// of each application's UUID and relation, and that of each driver's value and relation.
#[derive(Drop)]
pub struct Natives {
    kept: Vec<Native>,
    notified: Vec<Driver>,
    ghost few: { length kept.items ≤ 16 },
    ghost apart: { AllPairs (λ earlier later. earlier.uuid ≢ later.uuid) kept.items } by { Prim.hlevel props },
    ghost in_range: { All (λ driver. IsTrue (is_driver_value driver.value)) notified.items },
    ghost distinct: { AllPairs (λ earlier later. earlier.value ≢ later.value) notified.items } by { Prim.hlevel props },
}

impl Natives {
    ghost use Rattle.native_tas.specs.Driver.{driver_of, find_driver, has_driver};
    ghost use Rattle.native_tas.specs.Table.{drivers, entries};

    /// No applications and no drivers. Takes no memory.
    pub fn new(alloc: Global) -> Natives
        ensures entries { entries result ≡ [] }
        ensures drivers { drivers result ≡ [] }
    {
        Natives {
            kept: Vec::new(alloc),
            notified: Vec::new(alloc),
        }
    }

    /// One application and one driver, the driver's value from 1 to 63. Of the refusals only want of memory can come.
    pub fn of_one(alloc: Global, app: Native, driver: Driver) -> Result<Natives, AllocError>
        requires { IsTrue (is_driver_value driver.value) }
        ensures entries { IfOk result (λ natives. entries natives ≡ entry_of app ∷ []) }
        ensures drivers { IfOk result (λ natives. drivers natives ≡ driver_of driver ∷ []) }
    {
        let mut natives = Natives::new(alloc);
        if natives.add(app).is_err() || natives.add_driver(driver).is_err() {
            return Err(AllocError);
        }
        Ok(natives)
    }

    /// Adds an application behind the others. Repeated exactly where its UUID is there, else Full exactly
    /// where sixteen are kept. After a refusal the table is as it was.
    pub fn add(&mut self, native: Native) -> Result<(), AddFault>
        ensures ok { OnOk result (entries self.new ≡ entries self.old ++ entry_of native ∷ []) }
        ensures err { OnErr result (entries self.new ≡ entries self.old) }
        ensures repeated { (result ≡ Err Repeated) ↔ (has (entries self.old) native.uuid ≡ true) }
        ensures full { (result ≡ Err Full)
            ↔ (has (entries self.old) native.uuid ≡ false) × (16 ≤ length (entries self.old)) }
        ensures drivers { drivers self.new ≡ drivers self.old }
    {
        if self.has(&native.uuid) {
            return Err(AddFault::Repeated);
        }
        if self.kept.len() >= MAX_NATIVES {
            return Err(AddFault::Full);
        }
        match self.kept.push(native) {
            Ok(()) => Ok(()),
            Err(_refused) => Err(AddFault::Memory),
        }
    }

    /// The UUIDs of the applications, in their order. Takes no memory.
    pub fn uuids(&self) -> ArrayVec<Uuid, MAX_NATIVES>
        ensures order { result.items ≡ map (λ entry. entry.0) (entries self.now) }
        ensures apart { AllPairs (λ earlier later. earlier ≢ later) result.items }
    {
        let mut uuids = ArrayVec::new();
        for native in &self.kept {
            uuids.push(native.uuid);
        }
        uuids
    }

    /// The UUID and the relation of each application, in their order.
    pub fn apps(&self, alloc: Global) -> Result<Vec<NativeApp>, AllocError>
        ensures { IfOk result (λ apps. map (λ app. (app.uuid, app.relation)) apps.items ≡ entries self.now) }
    {
        let mut apps = Vec::with_capacity(alloc, self.kept.len())?;
        for native in &self.kept {
            apps.push_reserved(NativeApp {
                uuid: native.uuid,
                relation: native.relation,
            });
        }
        Ok(apps)
    }

    /// The application with this UUID.
    pub fn get(&self, uuid: &Uuid) -> Option<&Native>
        ensures { option_map entry_of (option_copied result) ≡ find_entry (entries self.now) uuid.now }
    {
        let place = place_among(self.uuids().as_slice(), uuid)?;
        Some(&self.kept[place])
    }

    fn has(&self, uuid: &Uuid) -> bool
        ensures { result ≡ has (entries self.now) uuid.now }
    {
        self.get(uuid).is_some()
    }

    /// Adds a driver behind the others. Range exactly where its value is not from 1 to 63, else Repeated exactly
    /// where a driver has it. After a refusal the drivers are as they were.
    pub fn add_driver(&mut self, driver: Driver) -> Result<(), DriverFault>
        ensures ok { OnOk result (drivers self.new ≡ drivers self.old ++ driver_of driver ∷ []) }
        ensures err { OnErr result (drivers self.new ≡ drivers self.old) }
        ensures range { (result ≡ Err Range) ↔ (is_driver_value driver.value ≡ false) }
        ensures repeated { (result ≡ Err RepeatedDriver)
            ↔ (is_driver_value driver.value ≡ true) × (has_driver (drivers self.old) driver.value ≡ true) }
        ensures entries { entries self.new ≡ entries self.old }
    {
        if driver.value < 1 || driver.value > MAX_DRIVER_VALUE {
            return Err(DriverFault::Range);
        }
        if self.has_driver(driver.value) {
            return Err(DriverFault::Repeated);
        }
        match self.notified.push(driver) {
            Ok(()) => Ok(()),
            Err(_refused) => Err(DriverFault::Memory),
        }
    }

    /// The driver with this value.
    pub fn get_driver(&self, value: u32) -> Option<&Driver>
        ensures { option_map driver_of (option_copied result) ≡ find_driver (drivers self.now) value }
    {
        for driver in &self.notified {
            if driver.value == value {
                return Some(driver);
            }
        }
        None
    }

    fn has_driver(&self, value: u32) -> bool
        ensures { result ≡ has_driver (drivers self.now) value }
    {
        self.get_driver(value).is_some()
    }
}

fn place_among(uuids: &[Uuid], uuid: &Uuid) -> Option<usize>
    ensures { result ≡ position (λ kept. bytes_eq kept uuid.now) uuids.now }
{
    uuids.iter().position(|kept| *kept == *uuid)
}
