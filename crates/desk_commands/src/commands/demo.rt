//! `demo`: a design that is made, a fault that is put into it, and its diagnosis.
ghost use Rattle.std.specs.Prelude.{◌≡◌, ◌≢◌, ◌≤◌, IfOk, true};
ghost use Rattle.desk_commands.specs.Demo.{demo_output};
ghost use Rattle.desk_commands.specs.CommandEnds.{is_one_of, page_statuses};

use crate::page::Page;
use command_words::Demo;
use made_designs::demo_text;
use scan_model::NoMemory;
use std::alloc::Global;
use std::thread::Threads;

/// The page of a made design.
pub fn demo_page<R: Threads + Sync>(rt: &R, alloc: Global, demo: Demo) -> Result<Page, NoMemory>
    requires some { 1 ≤ demo.blocks }
    requires few { demo.blocks ≤ 200 }
    ensures status { IfOk result (λ page. page.status ≡ (demo_output demo.seed demo.blocks).status) }
    ensures text { IfOk result (λ page. page.text ≡ (demo_output demo.seed demo.blocks).text) }
    ensures no_fault { IfOk result (λ page. page.status ≢ 5) }
    ensures statuses { IfOk result (λ page. is_one_of page_statuses page.status ≡ true) }
{
    let Demo { seed, blocks } = demo;
    let text = demo_text(rt, alloc, made_designs::Demo { seed, blocks })?;
    Ok(Page { status: 0, text })
}
