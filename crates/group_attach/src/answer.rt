//! How the items of a group PDU are answered.

ghost use Rattle.std.specs.Prelude.{◌≡◌, ◌++◌, [], IfOk, OnOk};
ghost use Rattle.std.specs.List.{cons_option};
ghost use Rattle.group_attach.specs.Applied.{answer_by, answer, answers};

use identity::Itsi;
use mm_pdus::{ClassOfUsage, DetachReason, GroupAddress, GroupDown, GroupItems, GroupUp};
use registration::{Registry, Rule};
use std::alloc::{AllocError, Allocator};

/// The acknowledgement of a radio's group PDU: one answer for each item that attaches, in order, with
/// the address as it came. An attach to a group without a rule is rejected as unknown. Any other one
/// gets the rule's lifetime. It fails only when memory runs out.
pub fn answers<C: Allocator, R: Allocator + Clone, B: Allocator>(
    alloc: C,
    registry: &Registry<R>,
    itsi: Itsi,
    items: &GroupItems<GroupUp, B>,
) -> Result<GroupItems<GroupDown, C>, AllocError>
    ensures { IfOk result (λ list. list ≡ answers registry.now itsi items.now) }
{
    let mut list = GroupItems::new(alloc);
    for item in items.as_slice() {
        add(&mut list, answer(registry, itsi, item))?;
    }
    Ok(list)
}

fn add<C: Allocator>(
    list: &mut GroupItems<GroupDown, C>,
    answer: Option<GroupDown>,
) -> Result<(), AllocError>
    ensures { OnOk result (list.new ≡ list.old ++ cons_option answer []) }
{
    match answer {
        None => Ok(()),
        Some(down) => list.push(down).or(Err(AllocError)),
    }
}

fn answer<R: Allocator + Clone>(
    registry: &Registry<R>,
    itsi: Itsi,
    item: &GroupUp,
) -> Option<GroupDown>
    ensures { result ≡ answer registry.now itsi item.now }
{
    match item {
        GroupUp::Attach { class, address } => {
            let rule = registry.rule_of(address.gtsi(itsi).number());
            Some(answer_by(*class, *address, rule))
        }
        GroupUp::Leave { .. } => None,
    }
}

fn answer_by(class: ClassOfUsage, address: GroupAddress, rule: Option<Rule>) -> GroupDown
    ensures { result ≡ answer_by class address rule }
{
    match rule {
        None => GroupDown::Detach {
            reason: DetachReason::UnknownGroup,
            address,
        },
        Some(rule) => GroupDown::Attach {
            lifetime: rule.lifetime(),
            class,
            address,
        },
    }
}
