ghost use Rattle.std.specs.Prelude.{◌≡◌, ◌<◌, [], ◌∷◌, ◌++◌, length};
ghost use Rattle.param_copy.specs.Copying.{cookie_list, four};
ghost use Rattle.param_copy.specs.TakenLists.{with_param};

use crate::copied::{Place, Places};
use arrayvec::ArrayVec;
use std::alloc::Global;
use ta_params::{CopiedParams, GpParam};

/// A parameter that is copied.
#[derive(Drop)]
pub(crate) struct CopiedParam {
    pub param: GpParam,
    pub place: Place,
    /// The cookie of the registered buffer that it is a part of.
    pub cookie: Option<u64>,
}

/// The parameters of a call, copied out of RAM, without what was read.
#[derive(Drop)]
pub struct TakenParams {
    /// The parameters; behind the last one all are empty.
    pub params: CopiedParams,
    /// One for each parameter.
    pub places: Places,
    /// The cookies of the parameters that are parts of registered buffers, in the order of the parameters.
    pub cookies: ArrayVec<u64, 4>,
}

impl TakenParams {
    /// No parameters.
    pub(crate) fn none(alloc: Global) -> TakenParams
        ensures params { result.params ≡ four [] }
        ensures places { result.places.items ≡ [] }
        ensures cookies { result.cookies.items ≡ [] }
    {
        TakenParams {
            params: CopiedParams {
                p0: GpParam::Empty,
                p1: GpParam::Empty,
                p2: GpParam::Empty,
                p3: GpParam::Empty,
            },
            places: ArrayVec::new_in(alloc),
            cookies: ArrayVec::new(),
        }
    }

    /// Puts a parameter behind the others.
    pub(crate) fn add(&mut self, copy: CopiedParam)
        requires places { length self.old.places.items < 4 }
        requires cookies { length self.old.cookies.items < 4 }
        ensures params { self.new.params
            ≡ with_param self.old.params (length self.old.places.items) copy.param }
        ensures places { self.new.places.items ≡ self.old.places.items ++ copy.place ∷ [] }
        ensures cookies { self.new.cookies.items
            ≡ self.old.cookies.items ++ cookie_list copy.cookie }
    {
        let CopiedParam {
            param,
            place,
            cookie,
        } = copy;
        let index = self.len();
        self.set_param(index, param);
        self.places.push(place);
        if let Some(cookie) = cookie {
            self.cookies.push(cookie);
        }
    }

    fn len(&self) -> usize
        ensures { result ≡ length self.now.places.items }
    {
        self.places.len()
    }

    fn set_param(&mut self, index: usize, param: GpParam)
        ensures { self.new ≡ record self.old { params = with_param self.old.params index param } }
    {
        match index {
            0 => self.params.p0 = param,
            1 => self.params.p1 = param,
            2 => self.params.p2 = param,
            _ => self.params.p3 = param,
        }
    }
}
