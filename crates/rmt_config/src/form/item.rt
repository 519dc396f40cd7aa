//! The rules of form of each item of a configuration by itself.

ghost use Rattle.std.specs.Prelude.{◌≡◌};
ghost use Rattle.rmt_config.specs.Form.{items_are_formed};

use crate::config::Config;
use crate::form::header::headers_fit;
use crate::form::lane::ports_fit;
use crate::form::parser::parser_fits;
use crate::form::stage::stages_fit;
use crate::form::tails::have_headers;

/// Whether each item of a configuration keeps the rules of form that speak of it alone.
pub fn items_fit(config: &Config) -> bool
    ensures { result ≡ items_are_formed config.now }
{
    ports_fit(config)
        && headers_fit(config.headers.as_slice())
        && parser_fits(&config.parser)
        && have_headers(config)
        && stages_fit(config.stages.as_slice())
}
