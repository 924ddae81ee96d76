//! The technology prefixes of the joint group.

ghost use Rattle.std.specs.Prelude.{◌≡◌, IfOk, Some};
ghost use Rattle.std.specs.List.{filter};
ghost use Rattle.plan_difference.specs.Gathered.{is_joint_head};

use crate::classing::is_joint;
use crate::groups::dialled;
use compiler::Tables;
use gk_terms::{Dialled, TechPrefix};
use std::alloc::{AllocError, Global};

/// Those of these technology prefixes whose group is the joint one: digits of the joint group begin
/// with none or with one of these, and no other need be tried for them.
pub(crate) fn joint_heads(
    alloc: Global,
    old: &Tables,
    new: &Tables,
    heads: &[Option<TechPrefix>],
) -> Result<Vec<Option<TechPrefix>>, AllocError>
    ensures { IfOk result (λ kept.
        kept.items ≡ filter (is_joint_head old.now.commands new.now.commands) heads.now) }
{
    let mut kept = Vec::new(alloc);
    for head in heads {
        if is_joint_head(old, new, head) {
            kept.push(*head)?;
        }
    }
    Ok(kept)
}

/// Whether the group of a technology prefix is the joint one; so if there is none.
fn is_joint_head(old: &Tables, new: &Tables, head: &Option<TechPrefix>) -> bool
    ensures { result ≡ is_joint_head old.now.commands new.now.commands head.now }
{
    match head {
        Some(prefix) => is_joint_prefix(old, new, &dialled(prefix)),
        None => true,
    }
}

/// Whether the group of a technology prefix, as dialled digits, is the joint one.
fn is_joint_prefix(old: &Tables, new: &Tables, prefix: &Dialled) -> bool
    ensures { result ≡ is_joint_head old.now.commands new.now.commands (Some prefix.now) }
{
    is_joint(old, new, &old.declared(prefix), &new.declared(prefix))
}
