// Whether a frame's AUX is of this use model.
ghost use Rattle.std.specs.Prelude.{◌≡◌, length};
ghost use Rattle.frame.specs.Lengths.{aux_length};
ghost use Rattle.judgement.specs.Judgement.{as_table};

use aux_building::build_aux;
use frame::{AUX_LENGTH, Element, element_aux};

// Compares bytes 18 to 35 and 44 to 67 with those that a recording writes for the element. None of them depends on its filemarks and its marker.
#[tactic(auto, unfolding(crate::specs::Judgement::as_table), using(buffer::proofs::Agreement::agree_pointwise))]
pub(crate) fn as_table(e: Element, aux: &[u8]) -> bool
    requires { length aux.now ≡ aux_length }
    ensures { result ≡ as_table e aux.now }
{
    let mut table = [0; AUX_LENGTH];
    build_aux(&mut table, element_aux(e)).is_ok()
        && &aux[18..36] == &table[18..36]
        && &aux[44..68] == &table[44..68]
}
