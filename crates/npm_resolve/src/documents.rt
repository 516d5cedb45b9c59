//! The documents of the packages that are needed.
ghost use Rattle.std.specs.Prelude.{◌≡◌, ◌++◌, IfErr, IfOk, List, OnOk, [], ◌∷◌, string_bytes};
ghost use Rattle.std.specs.Fn.{FnReturnsAt};
ghost use Rattle.npm_resolve.specs.Asks.{AskValue};
ghost use Rattle.npm_resolve.specs.Documents.{AreDocumentsFor, ArePeers, IsUnread};
ghost use Rattle.npm_resolve.specs.Rules as Counting;
ghost use Rattle.npm_resolve.specs.Private.Gathering.{AreAdded, AreBegun, IsAnswered};

use crate::Result;
use crate::candidates::{Omits, Options, Reach};
use crate::requests::{Request, Requests};
use crate::rules::rules_of;
use crate::wishes::wishes_of;
use npm_pick_reports::LoadError;
use serde_json::Value;
use std::alloc::{AllocError, Global};

/// A name that is asked for, and the document of its package.
#[derive(Drop)]
pub struct Document {
    pub name: String,
    /// The name of the package in the registry. It is another one for an alias.
    pub package: String,
    pub packument: Value,
}

/// Reads the documents of the names that manifests ask for, and of those that the versions of these documents ask for, as deep as they
/// go, each once: peers or, by `Reach::Dependencies`, dependencies too. `load` returns the document of a package, if there is one. The
/// first alias of a name decides which package it is.
///
/// `overrides` of the first manifest, which is the root, change what all of them ask for. Those of other manifests do not count.
///
/// # Errors
///
/// - `Package`: a document was not read.
/// - `Memory`: an allocation failed.
///
/// # Memory
///
/// Allocates the documents, and three texts for each name.
pub fn documents_for<F: Fn(&str) -> Result<Option<Value>, LoadError>>(
    alloc: Global,
    manifests: &[Value],
    options: &Options<'_>,
    reach: Reach,
    omits: Omits,
    load: F,
) -> Result<Vec<Document>, LoadError>
    requires { F.IsAlwaysCallable load }
    ensures documents { IfOk result (λ documents. AreDocumentsFor (FnReturnsAt F.Fn load) manifests.now options.now reach omits
        documents.items) }
    ensures failed { IfErr result (IsUnread (FnReturnsAt F.Fn load)) }
{
    let mut documents = Vec::new(alloc);
    let mut requests = match first_requests(alloc, manifests, omits) {
        Ok(requests) => requests,
        Err(_) => return Err(LoadError::Memory),
    };
    for _ in 0..u64::MAX {
        let Some(request) = requests.queue.pop_front() else {
            return Ok(documents);
        };
        add_document(
            alloc,
            &mut documents,
            &mut requests,
            request,
            manifests,
            options,
            reach,
            omits,
            &load,
        )?;
    }
    // No memory has so many names.
    Err(LoadError::Memory)
}

/// The requests for what manifests ask for.
fn first_requests(alloc: Global, manifests: &[Value], omits: Omits) -> Result<Requests>
    ensures { IfOk result (AreBegun (Counting.rules_of manifests.now) omits manifests.now) }
{
    let rules = rules_of(alloc, manifests)?;
    let wishes = wishes_of(alloc, manifests, &rules, omits)?;
    let mut requests = Requests::new(alloc);
    requests.add_all(alloc, &wishes.asks)?;
    Ok(requests)
}

/// Reads the document of a request, if there is one, and asks for what its candidates ask for.
fn add_document<F: Fn(&str) -> Result<Option<Value>, LoadError>>(
    alloc: Global,
    documents: &mut Vec<Document>,
    requests: &mut Requests,
    request: Request,
    manifests: &[Value],
    options: &Options<'_>,
    reach: Reach,
    omits: Omits,
    load: &F,
) -> Result<(), LoadError>
    requires { F.IsAlwaysCallable load.now }
    ensures added { OnOk result (IsAnswered (FnReturnsAt F.Fn load.now) options.now reach (Counting.rules_of manifests.now) omits (string_bytes request.name)
        (string_bytes request.package) documents.old.items documents.new.items requests.old requests.new) }
    ensures failed { IfErr result (IsUnread (FnReturnsAt F.Fn load.now)) }
{
    let packument = match load(request.package.as_str()) {
        Ok(Some(packument)) => packument,
        Ok(None) => return Ok(()),
        Err(error) => return Err(error),
    };
    let document = Document {
        name: request.name,
        package: request.package,
        packument,
    };
    match add_found(
        alloc, documents, requests, document, manifests, options, reach, omits,
    ) {
        Ok(()) => Ok(()),
        Err(_) => Err(LoadError::Memory),
    }
}

/// Adds a document, and asks for what its candidates ask for.
fn add_found(
    alloc: Global,
    documents: &mut Vec<Document>,
    requests: &mut Requests,
    document: Document,
    manifests: &[Value],
    options: &Options<'_>,
    reach: Reach,
    omits: Omits,
) -> Result<()>
    ensures { OnOk result ((peers : List AskValue) × ArePeers options.now reach (Counting.rules_of manifests.now) omits document.packument peers
        × AreAdded peers requests.old requests.new × (documents.new.items ≡ documents.old.items ++ document ∷ [])) }
{
    requests.add_peers(alloc, &document.packument, manifests, options, reach, omits)?;
    match documents.push(document) {
        Ok(()) => Ok(()),
        Err(_) => Err(AllocError),
    }
}
