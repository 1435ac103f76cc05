//! What a GET of a path would answer.
ghost use Rattle.std.specs.Prelude.{◌≡◌, false, true, OnOk, IfOk, IfErr, IsErrOf, ◌⊎◌};
ghost use Rattle.std.specs.List.{list_all};
ghost use Rattle.httparse.specs.Grammar.{is_uri_byte};
ghost use Rattle.gate_types.specs.Tap.{has_failed, Took, TookFront};
ghost use Rattle.gate_http.specs.Routes.{routes};
ghost use Rattle.gate_http.specs.Parts.{read_or};
ghost use Rattle.gate_http.specs.Got.{is_target, got, Gets, GetsPart};
ghost use Rattle.gate_http.specs.Serving.{ServesGet};

use crate::answering::{answer_wanted, refuse};
use crate::fault::HttpFault;
use crate::request::{Wanted, read};
use crate::request_fault::RequestFault;
use crate::respond::Respond;
use crate::response::{Extent, Form, HEAD_ROOM};
use crate::routes::{Route, cut_query, find_route, router};
use crate::served::Served;
use gate_archive::Archive;
use gate_core::Gate;
use gate_types::tap::Tap;
use httparse::is_uri_token;
use matchit::Router;
use std::alloc::Global;
use std::io::Write;

/// The longest path that a head of 8,192 bytes has, of `GET `, the path, ` HTTP/1.1` and two line ends.
const PATH_LIMIT: usize = 8175;

fn are_target_bytes(bytes: &[u8]) -> bool
    ensures { result ≡ list_all is_uri_byte bytes.now }
{
    bytes.iter().all(|b| is_uri_token(*b))
}

/// Whether a request line can hold the path.
fn is_target(path: &str) -> bool
    ensures { result ≡ is_target path.now }
{
    !path.is_empty() && are_target_bytes(path.as_bytes())
}

/// What a GET of a path asks for.
///
/// # Errors
///
/// `HeadTooLarge` where no head has room for the path; `BadRequest` where no request line can hold it; else those of
/// the path itself.
fn find<'a>(router: &Router<Route>, path: &'a str) -> Result<Wanted<'a>, HttpFault>
    requires { router.now ≡ routes }
    ensures { read_or Extent.Whole result ≡ got path.now }
{
    if path.len() > PATH_LIMIT {
        return Err(HttpFault::HeadTooLarge);
    }
    if !is_target(path) {
        return Err(HttpFault::BadRequest);
    }
    let path = cut_query(path);
    read(find_route(router, path), path, true)
}

/// Writes the content of what a GET of this path, a query behind it or not, would be answered: no head, and for the
/// rest byte for byte what `answer_request` writes. A path that no head has room for is answered as a head that is too
/// large, and one that no request line can hold as a bad request. All memory of its own is taken before the gate is
/// asked.
///
/// # Errors
///
/// `Write` where the writer failed, within the content. `NoMemory` where nothing was asked or written. `Store` where
/// lines broke off behind a beginning of them.
pub fn get<G: Respond, W: Write>(
    alloc: Global,
    gate: &mut G,
    path: &str,
    writer: &mut Tap<W>,
) -> Result<Served, RequestFault>
    requires { has_failed writer.old ≡ false }
    ensures ok { IfOk result (Gets G.responds G.recalls path.now gate.old
        (Took W.contents writer.old writer.new) gate.new) }
    ensures write { IsErrOf result RequestFault.Write → (served : Served) × Gets G.responds G.recalls path.now gate.old
        (TookFront W.contents writer.old writer.new) gate.new served }
    ensures memory { IsErrOf result RequestFault.NoMemory → (gate.new ≡ gate.old) × (writer.new ≡ writer.old) }
    ensures store { IsErrOf result RequestFault.Store →
        GetsPart G.recalls path.now gate.old (TookFront W.contents writer.old writer.new) gate.new }
    ensures others { IfErr result (λ e.
        (e ≡ RequestFault.Write) ⊎ (e ≡ RequestFault.NoMemory) ⊎ (e ≡ RequestFault.Store)) }
    ensures unfailed { OnOk result (has_failed writer.new ≡ false) }
    ensures store_unfailed { IsErrOf result RequestFault.Store → has_failed writer.new ≡ false }
    ensures failed { IsErrOf result RequestFault.Write → has_failed writer.new ≡ true }
{
    match (router(alloc), Vec::with_capacity(alloc, HEAD_ROOM)) {
        (Ok(router), Ok(mut room)) => match find(&router, path) {
            Ok(wanted) => answer_wanted(alloc, gate, writer, &mut room, Form::Content, wanted),
            Err(fault) => refuse(writer, &mut room, Form::Content, fault, Extent::Whole),
        },
        _ => Err(RequestFault::NoMemory),
    }
}

/// The same of a gate, which only tells: it stays as it was.
///
/// # Errors
///
/// Those of `get`.
pub fn get_one<B: Archive, W: Write>(
    alloc: Global,
    gate: &mut Gate<B>,
    path: &str,
    writer: &mut Tap<W>,
) -> Result<Served, RequestFault>
    requires { has_failed writer.old ≡ false }
    ensures ok { IfOk result (λ served. ServesGet B.IsTrusted B.Holds B.LeavesOneOf gate.old gate.new path.now
        served (Took W.contents writer.old writer.new)) }
    // a beginning of the content was written
    ensures write { IsErrOf result RequestFault.Write → (served : Served)
        × ServesGet B.IsTrusted B.Holds B.LeavesOneOf gate.old gate.new path.now served
        (TookFront W.contents writer.old writer.new) }
    ensures store { IsErrOf result RequestFault.Store → ServesGet B.IsTrusted B.Holds B.LeavesOneOf gate.old gate.new
        path.now (Served.Answered 200) (TookFront W.contents writer.old writer.new) }
    ensures memory { IsErrOf result RequestFault.NoMemory → (gate.new ≡ gate.old) × (writer.new ≡ writer.old) }
    ensures others { IfErr result (λ e.
        (e ≡ RequestFault.Write) ⊎ (e ≡ RequestFault.NoMemory) ⊎ (e ≡ RequestFault.Store)) }
    ensures unfailed { OnOk result (has_failed writer.new ≡ false) }
    ensures store_unfailed { IsErrOf result RequestFault.Store → has_failed writer.new ≡ false }
    ensures failed { IsErrOf result RequestFault.Write → has_failed writer.new ≡ true }
{
    get(alloc, gate, path, writer)
}
