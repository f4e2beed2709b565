ghost use Rattle.std.specs.Prelude.{◌≡◌, ◌≤◌, ◌^◌, true, false, [], length, map, All, IfOk, OnOk, OnErr, IsErrOf};
ghost use Rattle.base.specs.Zeros.{zeros};
ghost use Rattle.core_port.specs.CorePort.{Answers, IsKernels, has_room, smcs_made};
ghost use Rattle.event_journal.specs.Journal.{copied_bytes};
ghost use Rattle.kernel_model.specs.Application.{booted};
ghost use Rattle.native_tas.specs.Table.{entries};
ghost use Rattle.ns_ram.specs.Lane.{IsInRam, bytes_at, bytes_put};
ghost use Rattle.play_model.specs.Play.{filled};
ghost use Rattle.smc_abi.specs.declared.regs.Regs.{Regs};
ghost use Rattle.smc_port.specs.Smc.{Makes};
ghost use Rattle.trace_text.specs.Sound.{IsSoundBoot, IsSoundFill};

use crate::of_boot::OfBoot;
use crate::serving::{serve, whole};
use base::NoMemory;
use core_at_work::CoreAtWork;
use core_machine::first_lane;
use kernel_state::{EnterRefusal, Terms};
use native_tas::Natives;
use ns_ram::Lane;
use smc_abi::Regs;
use smc_port::{PortRefusal, SmcPort, World};
use std::alloc::Global;
use std::marker::{Model, PhantomData};
use ta_isa::Boot;
use trace_text::Fill;

/// The most SMCs that a port makes.
const MOST_SMCS: u32 = 32_768;

/// The core counts its events, since nobody reads them, and its entries may read 2^28 bytes.
const TERMS: Terms = Terms {
    keeps: false,
    most: 1 << 28,
};

/// A port over a core of a boot, whose processor 0 makes its SMCs and sees its RAM.
#[derive(Drop)]
pub struct CorePort<B: OfBoot> {
    alloc: Global,
    at_work: CoreAtWork,
    lane: Lane,
    /// How many SMCs were made.
    made: u32,
    of: PhantomData<B>,
}

impl<B: OfBoot> Model for CorePort<B> {
    ghost use Rattle.kernel_state.specs.Meaning.{booted_of, events_of};
    ghost use Rattle.core_port.specs.CorePort.{CoreView};
    ghost use Rattle.core_port.specs.Serving.{IsPort};

    ghost Value = { CoreView };

    ghost view = { λ port. record { boot = booted_of port.at_work.core; history = events_of port.at_work.core; ram = port.lane } };

    ghost invariant = { λ port. IsPort B.booted port.at_work.core port.lane port.made };
}

impl<B: OfBoot> CorePort<B> {
    /// A port over a core of this boot, beside applications that are built in, with these fills in RAM. Nothing has happened
    /// yet.
    pub fn booted(
        alloc: Global,
        boot: Boot,
        natives: &Natives,
        fills: &[Fill],
    ) -> Result<CorePort<B>, NoMemory>
        requires of { booted boot (entries natives.now) ≡ B.booted }
        requires boot { IsSoundBoot (map (λ native. native.0) (entries natives.now)) boot }
        requires fills { All IsSoundFill fills.now }
        ensures { IfOk result (λ port. port ≡ record {
          boot = booted boot (entries natives.now);
          history = [];
          ram = filled (zeros 0x400000) fills.now;
        }) }
    {
        let lane = first_lane(alloc, fills)?;
        whole(&lane);
        let at_work = CoreAtWork::booted_on(alloc, boot, natives, TERMS)?;
        Ok(CorePort {
            alloc,
            at_work,
            lane,
            made: 0,
            of: PhantomData,
        })
    }

    /// Nothing is done: what is true of each port. All entries and exits of its core are those of the SMCs made, one behind the
    /// other, in a history that is legal from the boot.
    pub fn recall(&self)
        ensures boot { self.now.boot ≡ B.booted }
        ensures kernels { IsKernels self.now }
        ensures few { copied_bytes self.now.history ≤ 2 ^ 28 }
    {
        let _made = self.made;
    }
}

impl<B: OfBoot> SmcPort for CorePort<B> {
    ghost ram = { λ port. port.ram };

    ghost made = { λ port. smcs_made port };

    ghost has_room = { λ port regs. has_room port regs };

    fn smc(&mut self, regs: Regs) -> Result<Regs, PortRefusal>
        ensures made { IfOk result (λ answer.
            Makes self.old.ram (smcs_made self.old) regs answer self.new.ram (smcs_made self.new)) }
        ensures room { OnOk result (has_room self.old regs ≡ true) }
        ensures spent { IsErrOf result PortRefusal.Spent → has_room self.old regs ≡ false }
        ensures ram_stays { OnErr result (self.new.ram ≡ self.old.ram) }
        ensures made_stays { OnErr result (smcs_made self.new ≡ smcs_made self.old) }
        ensures room_stays { OnErr result ((next : Regs) → has_room self.new next ≡ has_room self.old next) }
        ensures whole { length self.new.ram ≡ 0x400000 }

        // What the core has answered, and all that the call changes.
        ensures answers { IfOk result (λ answer. Answers self.old regs answer self.new) }
        ensures unchanged { OnErr result (self.new ≡ self.old) }
    {
        if self.made == MOST_SMCS {
            return Err(PortRefusal::Spent);
        }
        match serve(self.alloc, &mut self.at_work, &mut self.lane, regs) {
            Ok(answer) => {
                self.made += 1;
                Ok(answer)
            }
            Err(EnterRefusal::Full { .. }) => Err(PortRefusal::Spent),
            Err(EnterRefusal::Memory) => Err(PortRefusal::Memory),
        }
    }
}

impl<B: OfBoot> World for CorePort<B> {
    fn peek(&self, addr: u64, out: &mut [u8])
        requires { IsInRam addr (length out.old) }
        ensures bytes { out.new ≡ bytes_at self.now.ram addr (length out.old) }
        ensures whole { length self.now.ram ≡ 0x400000 }
    {
        self.lane.read(addr, out);
    }

    fn poke(&mut self, addr: u64, bytes: &[u8])
        requires { IsInRam addr (length bytes.now) }
        ensures bytes { self.new.ram ≡ bytes_put self.old.ram addr bytes.now }
        ensures made { smcs_made self.new ≡ smcs_made self.old }
        ensures whole { length self.new.ram ≡ 0x400000 }
        ensures others { self.new ≡ record self.old { ram = bytes_put self.old.ram addr bytes.now } }
    {
        self.lane.write(addr, bytes);
    }
}
