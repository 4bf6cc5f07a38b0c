// The requests of a sheet, carried out on a strike list, and a line for each.
ghost use Rattle.std.specs.Prelude.{◌≡◌, IfOk, string_bytes};
ghost use Rattle.layers.specs.Table.{has};
ghost use Rattle.layers.specs.Views.{out_of, Kept};
ghost use Rattle.answers.specs.Text.{call_of, lines};

use crate::letter::Letter;
use crate::line::Told;
use indexes::Index;
use keys::Key;
use layers::{Call, StrikeList};
use sheets::Request;
use std::alloc::{AllocError, Global};

// The call that a request makes. (No `From`: neither type is this crate's.)
fn call<K: Key>(request: &Request<K>) -> Call<K>
    ensures { result ≡ call_of request.now }
{
    match request {
        Request::Strike(row) => Call::Strike(*row),
        Request::Restore(row) => Call::Restore(*row),
        Request::Place(side, key) => Call::Place(*key, *side),
    }
}

// The lines of the requests, carried out in their order.
pub(crate) fn run<K: Key, I: Index<K>>(
    heap: Global,
    list: &mut StrikeList<K, I>,
    requests: &[Request<K>],
) -> Result<String, AllocError>
    requires { Kept I.Index.opened I.Index.means list.old }
    ensures { IfOk result (λ t. string_bytes t ≡ lines K.Key.before (I.Index.means list.old.below) (has (out_of list.old)) requests.now) }
{
    let mut text = String::new(heap);
    for request in requests {
        let letter = Letter::from(request);
        let answer = list.answer(&call(request));
        let told = Told(&answer);
        writeln!(text, "{letter}{told}")?;
    }
    Ok(text)
}
