//! A side that chooses its lines by what it is answered.

use line_port::Next;
use std::alloc::{AllocError, Global};

/// The most processors that there are.
const MAX_CPUS: usize = 8;

/// Two applications: one adds, and the invokes of the other wait.
const APPLICATIONS: [&str; 2] = [
    "ta 11111111-2222-3333-4444-555555555555 4f54544100000000010000000700000000000000000000000100000000000000000000001800000000000000010000000000000018000000030000000301000100000000010000000000000018000000040000001800000000000000",
    "ta 22222222-3333-4444-5555-666666666666 4f54544100000000010000000300000000000000000000000100000000000000000000001800000000000000180000000c0000001800000000000000",
];

/// Registers of calls that end at once, and of resumes.
const CALLS: [&str; 16] = [
    "bf00ff01 0 0 0 0 0 0 0",
    "bf00ff03 1 2 3 4 5 6 7",
    "b2000001 0 0 0 =0 =1 =2 =3",
    "b2000009 0 0 0 0 0 0 0",
    "b2000009 2 0 0 0 0 0 0",
    "b200000f 0 0 0 0 0 0 0",
    "b2000010 0 0 0 0 0 0 0",
    "b2000010 0 0 0 0 0 0 0",
    "b2000011 0 0 0 0 0 0 0",
    "b2000011 0 0 0 0 0 0 0",
    "99 =7 =6 =5 =4 =3 =2 =1",
    "32000003 0 40010000 =3 0 77 0 0",
    "32000003 0 0 =3 0 0 0 0",
    "32000003 0 40010000 0 0 77 0 0",
    "32000003 0 0 1 0 0 0 0",
    "32000003 0 0 2 0 0 0 1",
];

/// A new call, whose argument lies at the beginning of RAM.
const NEW_CALL: &str = "32000004 0 40000000 0 0 0 0 0";

/// Arguments of opens, invokes, closes and cancels, and of the two calls for notifications.
const ARGUMENTS: [&str; 11] = [
    "000000000000000000000000000000000000000000000000000000000200000001010000000000001111111122223333444455555555555500000000000000000101000000000000000000000000000000000000000000000000000000000000",
    "000000000000000000000000000000000000000000000000000000000200000001010000000000002222222233334444555566666666666600000000000000000101000000000000000000000000000000000000000000000000000000000000",
    "01000000fa000000010000000000000000000000000000000000000000000000",
    "01000000000000000200000009000000000000000000000000000000010000000300000000000000050000000000000007000000000000000000000000000000",
    "01000000fa000000030000000900000000000000000000000000000000000000",
    "0200000000000000010000000000000000000000000000000000000000000000",
    "0200000000000000020000000000000000000000000000000000000000000000",
    "0300000000000000010000000900000000000000000000000000000000000000",
    "0300000000000000030000000900000000000000000000000000000000000000",
    "0600000000000000000000000000000000000000000000000000000000000000",
    "0700000000000000000000000000000000000000000000000000000000000000",
];

/// Lines that break a rule wherever they stand, and two that say nothing.
const OTHER_LINES: [&str; 10] = [
    "smc 8 1 bf00ff01 0 0 0 0 0 0 0",
    "smc 0 0 bf00ff01 0 0 0 0 0 0 0",
    "signal 64",
    "show 0 40000000",
    "write 0 403fffff ffff",
    "boot 1 1 1",
    "leave 00",
    "shows 0 40000000 1",
    "# a comment",
    "",
];

/// What a side has been answered so far, and what it does next.
#[derive(Drop)]
pub struct Wanderer {
    alloc: Global,
    /// The processors, at least 1.
    cpus: u64,
    /// How many lines it has said of its header, a boot and two applications.
    header: usize,
    /// How many lines it still says behind these.
    turns: u32,
    /// A number that each byte of an answer moves on.
    state: u64,
    inside: [bool; MAX_CPUS],
    /// The processor that its last line has come in or go out, if that is taken, and whether it is inside then.
    moving: Option<(usize, bool)>,
}

impl Wanderer {
    /// A side of so many processors, 1 to 8, which says so many lines behind its header. At last it has those go out that are
    /// inside.
    pub fn new(alloc: Global, cpus: u32, turns: u32, seed: u32) -> Wanderer {
        Wanderer {
            alloc,
            cpus: u64::from(cpus),
            header: 0,
            turns,
            state: u64::from(seed),
            inside: [false; MAX_CPUS],
            moving: None,
        }
    }

    /// Moves on by a byte.
    fn hear(&mut self, byte: u8) {
        self.state = (self.state ^ u64::from(byte))
            .wrapping_mul(6_364_136_223_846_793_005)
            .wrapping_add(1_442_695_040_888_963_407);
    }

    /// A number.
    fn draw(&mut self) -> u64 {
        self.hear(0);
        self.state >> 33
    }

    /// Takes an answer.
    fn take(&mut self, said: &[u8]) {
        for byte in said {
            self.hear(*byte);
        }
        if let Some((cpu, is_inside)) = self.moving.take() {
            if said.ends_with(b"ok\n") && cpu < MAX_CPUS {
                self.inside[cpu] = is_inside;
            }
        }
    }

    /// A line of an entry with one of these registers.
    fn entry(&mut self, item: &str, cpu: u64, registers: &str) -> Result<String, AllocError> {
        let steps = self.draw() % 12 + 1;
        if item == "enter" {
            self.moving = Some((cpu as usize, true));
        }
        format!(in self.alloc; "{item} {cpu} {steps} {registers}")
    }

    /// A line of an exit.
    fn exit(&mut self, cpu: u64) -> Result<String, AllocError> {
        self.moving = Some((cpu as usize, false));
        format!(in self.alloc; "leave {cpu}")
    }

    /// A line that writes an argument.
    fn argument(&mut self, cpu: u64) -> Result<String, AllocError> {
        let bytes = ARGUMENTS[(self.draw() % 11) as usize];
        format!(in self.alloc; "write {cpu} 40000000 {bytes}")
    }

    /// A line of a signal, or one that does nothing.
    fn other(&mut self) -> Result<String, AllocError> {
        let number = self.draw() % 63 + 1;
        if number > 20 {
            return format!(in self.alloc; "signal {number}");
        }
        String::from_str(self.alloc, OTHER_LINES[(number % 10) as usize])
    }

    /// A line behind the header.
    fn turn(&mut self) -> Result<String, AllocError> {
        let cpu = self.draw() % self.cpus.max(1);
        let call = CALLS[(self.draw() % 16) as usize];
        match self.draw() % 16 {
            0 | 1 | 2 | 3 => self.entry("smc", cpu, call),
            4 | 5 | 6 => self.entry("smc", cpu, NEW_CALL),
            7 => self.entry("enter", cpu, call),
            8 => self.entry("enter", cpu, NEW_CALL),
            9 | 10 => self.exit(cpu),
            11 | 12 => self.argument(cpu),
            13 => format!(in self.alloc; "show {cpu} 40000000 32"),
            14 => format!(in self.alloc; "show {cpu} 40010000 48"),
            _ => self.other(),
        }
    }

    /// The exit of a processor that is inside, where there is one.
    fn last_exit(&mut self) -> Result<Option<String>, AllocError> {
        match self.inside.iter().position(|is_inside| *is_inside) {
            Some(cpu) => Ok(Some(self.exit(cpu as u64)?)),
            None => Ok(None),
        }
    }

    /// The next line.
    fn next_line(&mut self) -> Result<Option<String>, AllocError> {
        if self.header == 0 {
            self.header = 1;
            let cpus = self.cpus;
            return Ok(Some(format!(in self.alloc; "boot {cpus} 3 8")?));
        }
        if let Some(line) = APPLICATIONS.get(self.header - 1) {
            self.header += 1;
            return Ok(Some(String::from_str(self.alloc, line)?));
        }
        if self.turns > 0 {
            self.turns -= 1;
            return Ok(Some(self.turn()?));
        }
        self.last_exit()
    }

    /// Says the next line, where this is the last answer.
    pub fn say(&mut self, said: &[u8], line: &mut Vec<u8>) -> Result<Next, AllocError> {
        self.take(said);
        let Some(next) = self.next_line()? else {
            return Ok(Next::Over);
        };
        line.extend_from_slice(next.as_bytes())?;
        Ok(Next::Line)
    }
}
