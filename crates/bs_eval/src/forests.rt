//! Products of the values of series over forests, kept by the forests' numbers: a list for each series.

ghost use Rattle.std.specs.Prelude.{◌≡◌, ◌<◌, ◌⊎◌, length, MatchOption, IfSome, IsNone, OnOk, Some, None, [], ℕ};
ghost use Rattle.bs_frac.specs.Gathered.{Multiplied};
ghost use Rattle.bs_eval.specs.Forests.{in_list, product_at, ListAdds, ListTakes, ListsAdd};

use bs_frac::WholeProduct;
use bs_series::SeriesId;
use std::alloc::{AllocError, Global};

/// Products by the numbers of forests.
#[derive(Drop)]
pub(crate) struct Products {
    pub(crate) products: Vec<Option<WholeProduct>>,
}

/// A list of products for each series of a book.
#[derive(Drop)]
pub(crate) struct Forests {
    pub(crate) alloc: Global,
    pub(crate) lists: Vec<Products>,
}

impl Products {
    /// No product. Takes no memory.
    fn new(alloc: Global) -> Products
        ensures { result.products.items ≡ [] }
    {
        Products {
            products: Vec::new(alloc),
        }
    }

    /// The product at this place.
    fn get(&self, place: usize) -> Option<&WholeProduct>
        ensures { IfSome result (λ product. in_list (Some self.now) place ≡ Some product.now) }
    {
        match self.products.get(place) {
            Some(Some(product)) => Some(product),
            _ => None,
        }
    }

    /// Puts a product at this place.
    fn put(&mut self, place: usize, product: WholeProduct) -> Result<(), AllocError>
        ensures { ListTakes self.old self.new place product }
    {
        self.reach(place)?;
        self.products[place] = Some(product);
        Ok(())
    }

    /// Makes room up to this place.
    fn reach(&mut self, place: usize) -> Result<(), AllocError>
        ensures room { OnOk result (place < length self.new.products.items) }
        ensures same { ListAdds self.old self.new }
    {
        'places: while self.products.len() <= place {
            self.products.push(None)?;
        }
        Ok(())
    }
}

impl Forests {
    /// No product. Takes no memory.
    pub(crate) fn new(alloc: Global) -> Forests
        ensures { (id n : ℕ) → product_at result id n ≡ None }
    {
        Forests {
            alloc,
            lists: Vec::new(alloc),
        }
    }

    /// The product of a series over a forest, where it is kept.
    pub(crate) fn recall(&self, series: SeriesId, forest: u32) -> Option<&WholeProduct>
        ensures { IfSome result (λ product. product_at self.now series forest ≡ Some product.now) }
    {
        match self.lists.get(series.place()) {
            Some(list) => list.get(forest as usize),
            None => None,
        }
    }

    /// Keeps a product.
    pub(crate) fn keep(
        &mut self,
        series: SeriesId,
        forest: u32,
        product: WholeProduct,
    ) -> Result<(), AllocError>
        ensures { (id n : ℕ) (x : Multiplied) → product_at self.new id n ≡ Some x → (product_at self.old id n ≡ Some x) ⊎ ((id ≡ series) × (n ≡ forest) × (x ≡ product)) }
    {
        self.reach(series.place())?;
        self.lists[series.place()].put(forest as usize, product)
    }

    /// Makes lists up to this one.
    fn reach(&mut self, place: usize) -> Result<(), AllocError>
        ensures room { OnOk result (place < length self.new.lists.items) }
        ensures same { ListsAdd self.old.lists.items self.new.lists.items }
    {
        'lists: while self.lists.len() <= place {
            self.lists.push(Products::new(self.alloc))?;
        }
        Ok(())
    }
}
