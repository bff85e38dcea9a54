//! What a command comes to: its page, or the line of what stopped it. The process ends with its
//! command, so the design of a command is forgotten and not given back net by net.
pub mod check;
pub mod compact;
pub mod demo;
pub mod diagnose;
pub mod loc;
pub mod pack;

ghost use Rattle.std.specs.Prelude.{◌≡◌, ◌≤◌, List, Some, IfOk, true};
ghost use Rattle.desk_outside.specs.declared.shelf.File.{File};
ghost use Rattle.desk_outside.specs.Faults.{Rose};
ghost use Rattle.command_words.specs.Invocations.{IsSound, making};
ghost use Rattle.command_words.specs.CommandViews.{shown, shown_order};
ghost use Rattle.desk_commands.specs.Commands.{output_for, product_reading};
ghost use Rattle.desk_commands.specs.CommandStops.{Follows, IsPageOfAnswer, ends_by_fault};
ghost use Rattle.desk_commands.specs.CommandEnds.{IsDueOf, is_one_of, page_statuses};

use crate::commands::check::summary_of;
use crate::commands::compact::compact_report_of;
use crate::commands::demo::demo_page;
use crate::commands::diagnose::report_of;
use crate::commands::loc::transition_report_of;
use crate::commands::pack::bundle_of;
use crate::files::Stop;
use crate::page::{Page, page_of};
use command_words::{Command, Order, Product};
use desk_outside::Shelf;
use scan_model::{Name, NoMemory};
use std::alloc::Global;
use std::thread::Threads;

// What is made of the files of an order.
fn product_of<'a, R: Threads + Sync, F: Shelf>(
    rt: &R,
    alloc: Global,
    shelf: &mut F,
    product: Product,
    order: &Order<'a>,
) -> Result<Name, Stop<'a>>
    requires { IsSound (making product (shown_order order.now)) }
    ensures told { (held : List File) → F.files shelf.old ≡ Some held → Follows result (product_reading held product (shown_order order.now)) }
    ensures fault { ends_by_fault result ≡ true → Rose (F.faults shelf.old) (F.faults shelf.new) }
    ensures later { F.faults shelf.old ≤ F.faults shelf.new }
{
    match product {
        Product::Summary => summary_of(alloc, shelf, &order.files),
        Product::Bundle => bundle_of(alloc, shelf, &order.files),
        Product::Report => report_of(rt, alloc, shelf, order),
        Product::TransitionReport => transition_report_of(alloc, shelf, order),
        Product::CompactReport => compact_report_of(alloc, shelf, order),
    }
}

// The page of a text, or of the stop in its place.
fn page_of_answer(alloc: Global, answer: Result<Name, Stop<'_>>) -> Result<Page, NoMemory>
    ensures page { IfOk result (λ page. IsPageOfAnswer answer.entry page.status page.text) }
    ensures fault { IfOk result (λ page. page.status ≡ 5 → ends_by_fault answer.entry ≡ true) }
    ensures statuses { IfOk result (λ page. is_one_of page_statuses page.status ≡ true) }
{
    match answer {
        Ok(text) => Ok(Page { status: 0, text }),
        Err(stop) => page_of(alloc, &stop),
    }
}

/// The page of a command.
pub fn page_of_command<R: Threads + Sync, F: Shelf>(
    rt: &R,
    alloc: Global,
    shelf: &mut F,
    command: &Command<'_>,
) -> Result<Page, NoMemory>
    requires sound { IsSound (shown command.now) }
    ensures told { (held : List File) → F.files shelf.old ≡ Some held
        → IfOk result (λ page. IsDueOf (output_for held (Some (shown command.now))) (Rose (F.faults shelf.old) (F.faults shelf.new)) page.status page.text) }
    ensures fault { IfOk result (λ page. page.status ≡ 5 → Rose (F.faults shelf.old) (F.faults shelf.new)) }
    ensures statuses { IfOk result (λ page. is_one_of page_statuses page.status ≡ true) }
    ensures later { F.faults shelf.old ≤ F.faults shelf.new }
{
    match command {
        Command::Make { product, order } => {
            let answer = product_of(rt, alloc, shelf, *product, order);
            page_of_answer(alloc, answer)
        }
        Command::Demo(demo) => demo_page(rt, alloc, *demo),
    }
}
