//! Which node it is.
use std::marker::Brand;

/// Which node it is: what never changes of it. A caller picks that for each run of a node.
pub trait NodeSite: Drop {
    ghost use Rattle.bnc_work.specs.Site.{Settings};

    ghost settings: { Settings };
}

impl NodeSite for Brand {
    ghost use Rattle.std.specs.Prelude.{[]};

    ghost settings = { record {
      accounts = record { directory = []; networks = [] };
      cluster = [];
      maximum = 0;
      terms = record { word = []; me = record { node = []; incarnation = 0 }; peers = [] };
      days = 0;
    } };
}
