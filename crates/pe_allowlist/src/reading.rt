//! Reading an `allow` attribute.
ghost use Rattle.std.specs.Prelude.{◌≡◌, IfOk, OnOk, IsTrue, map, ◌↔◌, Some};
ghost use Rattle.std.specs.Option.{option_copied, option_or};
ghost use Rattle.pe_features.specs.declared.feature.Feature.{Feature};
ghost use Rattle.pe_features.specs.Features.{feature_name};
ghost use Rattle.pe_allowlist.specs.AsciiWords.{pieces_at};
ghost use Rattle.pe_allowlist.specs.Lists.{lists_of, is_policy_controlled, NoFeatureTwice};
ghost use Rattle.pe_allowlist.specs.Expressions.{expression_at};
ghost use Rattle.pe_allowlist.specs.ContainerPolicy as spec;

use crate::allowlist::Allowlist;
use crate::container::{Container, DeclaredOrigin};
use crate::expression::read_expression;
use crate::pairs::{find_list, put_list};
use crate::words::{is_keyword, pieces, words};
use pe_features::Feature;
use pe_origin::Origin;
use std::alloc::{AllocError, Global};

/// Puts into the list what `'src'` stands for.
fn put_src(list: &mut Allowlist, declared: &DeclaredOrigin) -> Result<(), AllocError>
    ensures { OnOk result (list.new ≡ spec.with_src declared.now list.old) }
{
    match declared {
        DeclaredOrigin::Known(Origin::Tuple(tuple)) => {
            list.src = Some(Origin::Tuple(tuple.copy()?));
        }
        DeclaredOrigin::Known(Origin::Opaque(_)) | DeclaredOrigin::Opaque => {
            list.src_opaque = true;
        }
    }
    Ok(())
}

/// Puts an expression into the list, where the word is one.
fn put_expression(alloc: Global, list: &mut Allowlist, word: &[u8]) -> Result<(), AllocError>
    ensures { OnOk result (list.new ≡ spec.with_expression (expression_at word.now) list.old) }
{
    if let Some(expression) = read_expression(alloc, word)? {
        list.expressions.push(expression)?;
    }
    Ok(())
}

/// Puts into the list what a word of the attribute stands for.
#[tactic(auto, unfolding(crate::specs::ContainerPolicy::with_word))]
fn put_word(
    alloc: Global,
    list: &mut Allowlist,
    embedder: &Origin,
    declared: &DeclaredOrigin,
    word: &[u8],
) -> Result<(), AllocError>
    ensures { OnOk result (list.new ≡ spec.with_word embedder.now declared.now list.old word.now) }
{
    if word == b"*".as_slice() {
        list.any = true;
    } else if is_keyword(word, b"'self'") {
        list.selves = Some(embedder.copy()?);
    } else if is_keyword(word, b"'src'") {
        put_src(list, declared)?;
    } else if !is_keyword(word, b"'none'") {
        put_expression(alloc, list, word)?;
    }
    Ok(())
}

/// The list of the words behind the name of a feature.
fn list_of_words(
    alloc: Global,
    embedder: &Origin,
    declared: &DeclaredOrigin,
    words: &[&[u8]],
) -> Result<Allowlist, AllocError>
    ensures { IfOk result (λ list. list ≡ spec.list_of_words embedder.now declared.now (map (λ x. x.now) words.now)) }
{
    let mut list = Allowlist::empty(alloc);
    if words.is_empty() {
        put_src(&mut list, declared)?;
        return Ok(list);
    }
    for word in words {
        put_word(alloc, &mut list, embedder, declared, word)?;
    }
    Ok(list)
}

/// The policy-controlled feature of this name.
fn controlled(name: &[u8]) -> Option<Feature>
    ensures { (f : Feature) → (result ≡ Some f) ↔ (IsTrue (is_policy_controlled f) × (name.now ≡ feature_name f)) }
{
    let feature = Feature::by_name(name)?;
    feature.default_of()?;
    Some(feature)
}

/// Gives the feature that a piece names, if it names one, the list of its words.
fn put_piece(
    alloc: Global,
    rows: &mut Vec<(Feature, Allowlist)>,
    embedder: &Origin,
    declared: &DeclaredOrigin,
    piece: &[u8],
) -> Result<(), AllocError>
    ensures put { OnOk result ((f : Feature)
        → lists_of rows.new.items f
        ≡ option_or (spec.list_by_piece embedder.now declared.now f piece.now) (lists_of rows.old.items f)) }
    ensures once { NoFeatureTwice rows.old.items → NoFeatureTwice rows.new.items }
{
    let words = words(alloc, piece)?;
    let Some((name, words)) = words.split_first() else {
        return Ok(());
    };
    let Some(feature) = controlled(name) else {
        return Ok(());
    };
    let list = list_of_words(alloc, embedder, declared, words)?;
    put_list(rows, feature, list)
}

/// The map of the pieces, of several for one feature the last.
#[tactic(auto, unfolding(crate::specs::Lists::lists_of, crate::specs::ContainerPolicy::list_by_pieces))]
fn read_pieces(
    alloc: Global,
    text: &[u8],
    embedder: &Origin,
    declared: &DeclaredOrigin,
) -> Result<Vec<(Feature, Allowlist)>, AllocError>
    ensures read { IfOk result (λ rows. (f : Feature)
        → lists_of rows.items f
        ≡ spec.list_by_pieces embedder.now declared.now f (pieces_at spec.is_semicolon text.now)) }
    ensures once { IfOk result (λ rows. NoFeatureTwice rows.items) }
{
    let mut rows = Vec::new(alloc);
    if text.is_empty() {
        return Ok(rows);
    }
    let pieces = pieces(alloc, text)?;
    for piece in &pieces {
        put_piece(alloc, &mut rows, embedder, declared, piece)?;
    }
    Ok(rows)
}

/// Gives the feature `fullscreen` every origin, where the attribute stands and the map lacks the feature.
fn put_fullscreen(
    alloc: Global,
    rows: &mut Vec<(Feature, Allowlist)>,
    fullscreen: bool,
) -> Result<(), AllocError>
    ensures put { OnOk result ((f : Feature)
        → lists_of rows.new.items f
        ≡ option_or (lists_of rows.old.items f) (spec.list_by_fullscreen fullscreen f)) }
    ensures once { NoFeatureTwice rows.old.items → NoFeatureTwice rows.new.items }
{
    if !fullscreen {
        return Ok(());
    }
    if find_list(rows, Feature::Fullscreen).is_some() {
        return Ok(());
    }
    let mut list = Allowlist::empty(alloc);
    list.any = true;
    put_list(rows, Feature::Fullscreen, list)
}

/// The container policy of an `allow` attribute's text, of whether the `fullscreen` attribute stands,
/// of the embedder's origin and of the declared origin (Permissions Policy, "container policy"). Nothing
/// is refused: what names no policy-controlled feature, and a word that stands for nothing, is skipped.
/// `AllocError` where memory wants.
pub fn read_allow(
    alloc: Global,
    text: Option<&[u8]>,
    fullscreen: bool,
    embedder: &Origin,
    declared: &DeclaredOrigin,
) -> Result<Container, AllocError>
    ensures { IfOk result (λ container. (f : Feature)
        → lists_of container f
        ≡ spec.container_policy (option_copied text.entry) fullscreen embedder.now declared.now f) }
{
    let mut rows = read_pieces(alloc, text.unwrap_or(b""), embedder, declared)?;
    put_fullscreen(alloc, &mut rows, fullscreen)?;
    Ok(Container::of(rows))
}
