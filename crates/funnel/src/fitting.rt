ghost use Rattle.std.specs.Prelude.{◌≡◌};
ghost use Rattle.funnel_model.specs.Configuration.{IsInRange};
ghost use Rattle.command_line.specs.Commands.{HasNumbersInRange, IsServeInRange};
ghost use Rattle.funnel.specs.Misfits.{last_port_of, misfit_of, misfit_of_load, misfit_of_serve};

use crate::ends::Misfit;
use command_line::{Command, LoadCommand, MOST_PORT, ServeCommand};
use funnel_model::Config;
use treatment::sizes;

/// The first of the command's numbers that does not fit this number of gates, or the configuration.
pub(crate) fn misfit(command: Command, gates: usize, config: &Config) -> Option<Misfit>
    requires numbers { HasNumbersInRange command }
    requires config { IsInRange config.now }
    ensures { result ≡ misfit_of command gates config.now }
{
    match command {
        Command::Run => None,
        Command::Serve(serve) => misfit_of_serve(serve, gates, config),
        Command::Load(load) => misfit_of_load(load, config),
        Command::Fit(_) => None,
    }
}

fn misfit_of_serve(serve: ServeCommand, gates: usize, config: &Config) -> Option<Misfit>
    requires { IsServeInRange serve }
    ensures { result ≡ misfit_of_serve serve gates config.now }
{
    let stated = serve.workers;
    let given = gates as u64;
    if given != u64::from(stated) {
        return Some(Misfit::Gates { stated, given });
    }
    let passes = config.passes;
    if passes < stated {
        return Some(Misfit::Workers {
            asked: stated,
            passes,
        });
    }
    let last = last_port(serve);
    if MOST_PORT < last {
        return Some(Misfit::Ports { last });
    }
    None
}

/// The port of the last worker.
fn last_port(serve: ServeCommand) -> u32
    requires { IsServeInRange serve }
    ensures { result ≡ last_port_of serve }
{
    if serve.one_port {
        serve.port
    } else {
        serve.port + serve.workers - 1
    }
}

fn misfit_of_load(load: LoadCommand, config: &Config) -> Option<Misfit>
    requires { IsInRange config.now }
    ensures { result ≡ misfit_of_load load config.now }
{
    let passes = config.passes;
    if passes < load.workers {
        let asked = load.workers;
        return Some(Misfit::Workers { asked, passes });
    }
    let docs = u64::from(load.docs);
    let columns = sizes(config).columns;
    if columns < docs {
        return Some(Misfit::Columns { docs, columns });
    }
    None
}
