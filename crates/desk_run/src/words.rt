//! What `serve` is asked for.
ghost use Rattle.std.specs.Prelude.{◌≡◌};
ghost use Rattle.command_words.specs.CommandViews.{shown_service};
ghost use Rattle.desk_serve.specs.Runs.{order_of};
ghost use Rattle.desk_run.specs.Words.{run_for};

use command_words::Service;
use desk_serve::ServiceOrder;

/// The run that the words of `serve` ask for.
pub fn serving_of(service: Service<'_>) -> ServiceOrder<'_>
    ensures asked { order_of result ≡ run_for (shown_service service.entry) }
    ensures workers { result.workers ≡ service.entry.workers }
{
    let Service {
        port,
        workers,
        sessions,
        store,
    } = service;
    ServiceOrder {
        port,
        workers,
        sessions,
        store,
    }
}
