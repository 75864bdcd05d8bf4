//! Looking a SYSMOD up among others.
ghost use Rattle.std.specs.Prelude.{◌≡◌, Some, is_some, IfSome};
ghost use Rattle.std.specs.List.{slice_get};
ghost use Rattle.catalogue.specs.Ids.{Ascend};
ghost use Rattle.supersede.specs.Reach.{has};

use mcs_reader::Id;

/// The index of a SYSMOD among SYSMODs that ascend, each once, if it is among them. It searches by halves.
pub fn index_among(ids: &[Id], id: &Id) -> Option<usize>
    requires { Ascend ids.now }
    ensures stands { is_some result ≡ has ids.now id.now }
    ensures index { IfSome result (λ at. slice_get ids.now at ≡ Some id.now) }
{
    match ids.binary_search(id) {
        Ok(at) => Some(at),
        Err(_) => None,
    }
}
