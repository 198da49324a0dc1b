// A function and its statements.
ghost use Rattle.std.specs.Prelude.{◌≡◌, ◌++◌, ◌∷◌, [], map, IfOk};
ghost use Rattle.beldi_check.specs.Site.{sites_of, site_of};

use crate::site::{Site, sites_of};
use beldi_tree::Func;
use std::alloc::{AllocError, Global};
use std::marker::Model;

/// A function with the statements of its body in the order of the text.
#[derive(Drop)]
pub struct Listed<'a> {
    func: &'a Func,
    sites: Vec<Site<'a>>,
}

impl<'a> Model for Listed<'a> {
    ghost use Rattle.std.specs.Prelude.{◌≡◌, map};
    ghost use Rattle.beldi_tree.specs.declared.deployment.Func.{Func};
    ghost use Rattle.beldi_tree.specs.contracts.deployment.Func as function;
    ghost use Rattle.beldi_check.specs.Site.{sites_of, site_of};

    ghost Value = { Func };

    ghost coded = { function.the_row.coded };

    ghost view = { λ a. a.func.now };

    ghost invariant = { λ a. map site_of a.sites.items ≡ sites_of a.func.now.body };
}

impl<'a> Listed<'a> {
    fn new(alloc: Global, func: &'a Func) -> Result<Listed<'a>, AllocError>
        ensures { IfOk result (λ l. l ≡ func.now) }
    {
        let sites = sites_of(alloc, &func.body)?;
        Ok(Listed { func, sites })
    }

    pub fn func(&self) -> &'a Func
        ensures { result.now ≡ self.now }
    {
        self.func
    }

    pub fn sites(&self) -> &[Site<'a>]
        ensures { map site_of result.now ≡ sites_of self.now.body }
    {
        self.sites.as_slice()
    }
}

/// Each of these functions with its statements.
pub fn list_all<'a>(alloc: Global, funcs: &'a [Func]) -> Result<Vec<Listed<'a>>, AllocError>
    ensures { IfOk result (λ v. v.items ≡ funcs.now) }
{
    let mut all = Vec::new(alloc);
    for func in funcs {
        all.push(Listed::new(alloc, func)?)?;
    }
    Ok(all)
}
