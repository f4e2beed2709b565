ghost use Rattle.std.specs.Prelude.{◌≡◌, ◌<◌, IsSome, fold};
ghost use Rattle.std.specs.List.{AllByRecursion};
ghost use Rattle.base.specs.NumberMap.{get};
ghost use Rattle.shm_registry.specs.Registered.{with_pin};

use shm_registry::Registry;

/// The slot uses the buffers of these cookies.
pub(crate) fn pin_cookies(registry: &mut Registry, cookies: &[u64], slot: u8)
    requires kept { AllByRecursion (λ cookie. IsSome (get registry.old.buffers cookie)) cookies.now }
    requires slot { slot < 16 }
    ensures { registry.new ≡ record registry.old {
      pins = fold (λ pins cookie. with_pin pins cookie slot) registry.old.pins cookies.now;
    } }
{
    for cookie in cookies {
        registry.pin(*cookie, slot);
    }
}
