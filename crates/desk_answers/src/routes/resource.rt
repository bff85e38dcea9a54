//! The resource that a target names.
ghost use Rattle.std.specs.Prelude.{◌≡◌, Some, None, IfOk, IfErr, option_map, slice_get};
ghost use Rattle.std.specs.Str.{IsAscii};
ghost use Rattle.desk_answers.specs.declared.routes.resource.Miss.TheVariants as miss;
ghost use Rattle.desk_answers.specs.Resources.{methods_of, named, number_at, resource_of, tag_at, taken};

use crate::routes::{Route, Routes};
use desk_replies::Methods;
use matchit::Params;
use scan_model::{Name, NoMemory};
use std::alloc::Global;
use text_parts::{is_tag, number_of};

/// What a target names. Names are tags, numbers those of number words.
#[derive(Drop)]
pub enum Resource {
    /// `/designs/{design}`: a design.
    Design {
        design: Name,
    },
    /// `/designs/{design}/faults/{fault}/fails`: the fails that a fault of the design would give, by its number from 0.
    Fails {
        design: Name,
        fault: u32,
    },
    /// `/designs/{design}/dies/{die}/logs`: the fail logs of a die.
    Logs {
        design: Name,
        die: Name,
    },
    /// `/designs/{design}/dies/{die}/report`: the report of all logs of a die.
    LastReport {
        design: Name,
        die: Name,
    },
    /// `/designs/{design}/dies/{die}/reports/{revision}`: the report of so many first logs of a die.
    Report {
        design: Name,
        die: Name,
        revision: u32,
    },
    /// `/designs/{design}/dies/{die}/reports/{revision}/pages/{line}`: the page of such a report that begins with a line.
    Page {
        design: Name,
        die: Name,
        revision: u32,
        line: u32,
    },
    /// `/designs/{design}/dies/{die}/reports/{revision}/slat`: the patterns that single faults explain, by so many first logs of a die.
    Slat {
        design: Name,
        die: Name,
        revision: u32,
    },
    /// `/designs/{design}/dies/{die}/reports/{revision}/slat/{pattern}`: the faults that explain one of them, by its number from 0.
    SlatPattern {
        design: Name,
        die: Name,
        revision: u32,
        pattern: u32,
    },
    /// `/designs/{design}/dies/{die}/signoffs`: the sign-offs of a die.
    Signs {
        design: Name,
        die: Name,
    },
    /// `/designs/{design}/dies/{die}/signoffs/{number}`: a sign-off of a die, by its number from 1.
    Sign {
        design: Name,
        die: Name,
        number: u32,
    },
}

impl Resource {
    /// The methods that it has.
    pub fn methods(&self) -> Methods
        ensures { result ≡ methods_of self.now }
    {
        match self {
            Resource::Design { .. } => Methods::GetPut,
            Resource::Logs { .. } | Resource::Signs { .. } => Methods::Post,
            _ => Methods::Get,
        }
    }
}

// Why a target names nothing.
#[derive(Clone, Copy)]
enum Miss {
    NoRoute,
    NoMemory,
}

impl From<NoMemory> for Miss {
    ghost from_gives = { λ _ e. e ≡ miss.NoMemory };

    fn from(_: NoMemory) -> Self {
        Miss::NoMemory
    }
}

impl Routes {
    /// What an ASCII target names: that of its route, where each segment in braces is a tag or a number word as it should
    /// be. `None` of any other target. `Err`: memory ran out.
    pub fn resource(&self, alloc: Global, target: &str) -> Result<Option<Resource>, NoMemory>
        requires { IsAscii target.now }
        ensures { IfOk result (λ found. found ≡ resource_of target.now) }
    {
        let Ok(found) = self.router.at(target) else {
            return Ok(None);
        };
        match named(alloc, *found.value, &found.params) {
            Ok(resource) => Ok(Some(resource)),
            Err(Miss::NoRoute) => Ok(None),
            Err(Miss::NoMemory) => Err(NoMemory),
        }
    }
}

// What a route names with the segments that its parameters took.
fn named(alloc: Global, route: Route, params: &Params<'_, '_>) -> Result<Resource, Miss>
    requires { IsAscii params.now.path.now }
    ensures ok { IfOk result (λ resource. named route (taken params.now) ≡ Some resource) }
    ensures miss { IfErr result (λ e. e ≡ miss.NoRoute → named route (taken params.now) ≡ None) }
{
    let design = tag_at(alloc, params, 0)?;
    Ok(match route {
        Route::Design => Resource::Design { design },
        Route::Fails => Resource::Fails {
            design,
            fault: number_at(params, 1)?,
        },
        Route::Logs => Resource::Logs {
            design,
            die: tag_at(alloc, params, 1)?,
        },
        Route::LastReport => Resource::LastReport {
            design,
            die: tag_at(alloc, params, 1)?,
        },
        Route::Report => Resource::Report {
            design,
            die: tag_at(alloc, params, 1)?,
            revision: number_at(params, 2)?,
        },
        Route::Page => Resource::Page {
            design,
            die: tag_at(alloc, params, 1)?,
            revision: number_at(params, 2)?,
            line: number_at(params, 3)?,
        },
        Route::Slat => Resource::Slat {
            design,
            die: tag_at(alloc, params, 1)?,
            revision: number_at(params, 2)?,
        },
        Route::SlatPattern => Resource::SlatPattern {
            design,
            die: tag_at(alloc, params, 1)?,
            revision: number_at(params, 2)?,
            pattern: number_at(params, 3)?,
        },
        Route::Signs => Resource::Signs {
            design,
            die: tag_at(alloc, params, 1)?,
        },
        Route::Sign => Resource::Sign {
            design,
            die: tag_at(alloc, params, 1)?,
            number: number_at(params, 2)?,
        },
    })
}

// The tag that a parameter took, by its place in the route.
fn tag_at(alloc: Global, params: &Params<'_, '_>, place: usize) -> Result<Name, Miss>
    requires { IsAscii params.now.path.now }
    ensures ok { IfOk result (λ name. tag_at place (taken params.now) ≡ Some name) }
    ensures miss { IfErr result (λ e. e ≡ miss.NoRoute → tag_at place (taken params.now) ≡ None) }
{
    let Some(segment) = segment_at(params, place) else {
        return Err(Miss::NoRoute);
    };
    if !is_tag(segment.as_bytes()) {
        return Err(Miss::NoRoute);
    }
    Ok(Name::copy_of(alloc, segment.as_bytes())?)
}

// The number of the number word that a parameter took.
fn number_at(params: &Params<'_, '_>, place: usize) -> Result<u32, Miss>
    requires { IsAscii params.now.path.now }
    ensures ok { IfOk result (λ n. number_at place (taken params.now) ≡ Some n) }
    ensures miss { IfErr result (λ e. (e ≡ miss.NoRoute) × (number_at place (taken params.now) ≡ None)) }
{
    let Some(segment) = segment_at(params, place) else {
        return Err(Miss::NoRoute);
    };
    number_of(segment.as_bytes()).ok_or(Miss::NoRoute)
}

// What a parameter took of an ASCII path.
fn segment_at<'p>(params: &Params<'_, 'p>, place: usize) -> Option<&'p str>
    requires { IsAscii params.now.path.now }
    ensures { option_map (λ segment. segment.now) result ≡ slice_get (taken params.now) place }
{
    let (_, segment) = params.iter().nth(place)?;
    Some(segment)
}
