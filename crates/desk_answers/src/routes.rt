//! The routes of the desk, and which of them a target takes.

pub(crate) mod resource;

ghost use Rattle.std.specs.Prelude.{◌≡◌, [], IfOk, OnOk};
ghost use Rattle.desk_answers.specs.Routes.{routes};

use matchit::{InsertError, Router};
use scan_model::NoMemory;
use std::alloc::Global;
use std::marker::Model;

/// What a path of the desk names. Each segment in braces is a tag or a number word.
#[derive(Clone, Copy)]
pub enum Route {
    /// `/designs/{design}`
    Design,
    /// `/designs/{design}/faults/{fault}/fails`
    Fails,
    /// `/designs/{design}/dies/{die}/logs`
    Logs,
    /// `/designs/{design}/dies/{die}/report`
    LastReport,
    /// `/designs/{design}/dies/{die}/reports/{revision}`
    Report,
    /// `/designs/{design}/dies/{die}/reports/{revision}/pages/{line}`
    Page,
    /// `/designs/{design}/dies/{die}/reports/{revision}/slat`
    Slat,
    /// `/designs/{design}/dies/{die}/reports/{revision}/slat/{pattern}`
    SlatPattern,
    /// `/designs/{design}/dies/{die}/signoffs`
    Signs,
    /// `/designs/{design}/dies/{die}/signoffs/{number}`
    Sign,
}

/// The table of routes, in which targets are looked up.
#[derive(Drop)]
pub struct Routes {
    pub(crate) router: Router<Route>,
}

impl Model for Routes {
    ghost use Rattle.std.specs.Prelude.{◌≡◌};
    ghost use Rattle.matchit.specs.Rows.{RowsOf};
    ghost use Rattle.matchit.specs.Router.{RouteOf};
    ghost use Rattle.desk_answers.specs.declared.routes.Route.{Route};
    ghost use Rattle.desk_answers.specs.Routes.{routes};

    ghost Value = { RowsOf (RouteOf Route) };

    ghost view = { λ table. table.router };

    ghost invariant = { λ table. table.router ≡ routes };
}

impl Routes {
    /// The ten routes.
    pub fn make(alloc: Global) -> Result<Self, NoMemory>
        ensures { IfOk result (λ table. table ≡ routes) }
    {
        match router(alloc) {
            Ok(router) => Ok(Routes { router }),
            Err(_) => Err(NoMemory),
        }
    }
}

// No two of these routes conflict, so that an error is want of memory.
fn add_routes(router: &mut Router<Route>) -> Result<(), InsertError>
    requires { router.old ≡ [] }
    ensures { OnOk result (router.new ≡ routes) }
{
    router.insert("/designs/{design}", Route::Design)?;
    router.insert("/designs/{design}/faults/{fault}/fails", Route::Fails)?;
    router.insert("/designs/{design}/dies/{die}/logs", Route::Logs)?;
    router.insert("/designs/{design}/dies/{die}/report", Route::LastReport)?;
    router.insert(
        "/designs/{design}/dies/{die}/reports/{revision}",
        Route::Report,
    )?;
    router.insert(
        "/designs/{design}/dies/{die}/reports/{revision}/pages/{line}",
        Route::Page,
    )?;
    router.insert(
        "/designs/{design}/dies/{die}/reports/{revision}/slat",
        Route::Slat,
    )?;
    router.insert(
        "/designs/{design}/dies/{die}/reports/{revision}/slat/{pattern}",
        Route::SlatPattern,
    )?;
    router.insert("/designs/{design}/dies/{die}/signoffs", Route::Signs)?;
    router.insert(
        "/designs/{design}/dies/{die}/signoffs/{number}",
        Route::Sign,
    )?;
    Ok(())
}

fn router(alloc: Global) -> Result<Router<Route>, InsertError>
    ensures { IfOk result (λ router. router ≡ routes) }
{
    let mut router = Router::new(alloc);
    add_routes(&mut router)?;
    Ok(router)
}
