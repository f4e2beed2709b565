//! Buffers that are registered, or are registered no more.
ghost use Rattle.std.specs.Prelude.{◌≡◌, ◌<◌, None, IsSome, length};
ghost use Rattle.base.specs.NumberMap.{get, insert, remove};
ghost use Rattle.shm_registry.specs.Pieces.{IsBuffer};
ghost use Rattle.shm_registry.specs.Registered.{lowest_slot};

use shm_registry::{PageBuffer, Registry};

/// Keeps the buffer under its cookie.
pub(crate) fn keep_buffer(registry: &mut Registry, cookie: u64, buffer: PageBuffer)
    requires fresh { get registry.old.buffers cookie ≡ None }
    requires room { length registry.old.buffers < 64 }
    requires buffer { IsBuffer buffer }
    ensures { registry.new ≡ record registry.old { buffers = insert registry.old.buffers cookie buffer } }
{
    let Ok(()) = registry.register(cookie, buffer) else {
        unreachable!();
    };
}

/// Keeps the buffer of the cookie no more.
pub(crate) fn drop_buffer(registry: &mut Registry, cookie: u64)
    requires kept { IsSome (get registry.old.buffers cookie) }
    requires free { lowest_slot registry.old.pins cookie ≡ None }
    ensures { registry.new ≡ record registry.old { buffers = remove registry.old.buffers cookie } }
{
    let Ok(_buffer) = registry.unregister(cookie) else {
        unreachable!();
    };
}
