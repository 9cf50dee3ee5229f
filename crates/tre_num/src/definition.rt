use std::alloc::AllocError;
use std::marker::Model;
use tre_define::Comparison;

/// A name for a comparison of the numbers of a column with a number.
#[derive(Drop)]
pub struct Definition {
    name: String,
    column: String,
    comparison: Comparison,
    value: i64,
}

impl Model for Definition {
    ghost use Rattle.std.specs.Prelude.{string_bytes};
    ghost use Rattle.tre_num.specs.Defined.{Defined};

    ghost Value = { Defined };

    ghost view = { λ d. record {
      name = string_bytes d.name;
      column = string_bytes d.column;
      comparison = d.comparison;
      value = d.value;
    } };
}

impl Definition {
    ghost use Rattle.std.specs.Prelude.{◌≡◌, IfOk, string_bytes};
    ghost use Rattle.tre_num.specs.Defined.{Defined};

    /// The definition of a name: the numbers of the column, compared with the value.
    pub fn new(name: String, column: String, comparison: Comparison, value: i64) -> Definition
        ensures { result ≡ record {
          name = string_bytes name;
          column = string_bytes column;
          comparison = comparison;
          value = value;
        } }
    {
        Definition {
            name,
            column,
            comparison,
            value,
        }
    }

    /// The same once more.
    pub fn try_clone(&self) -> Result<Definition, AllocError>
        ensures { IfOk result (λ copy. copy ≡ self.now) }
    {
        let name = self.name.clone()?;
        let column = self.column.clone()?;
        Ok(Definition::new(name, column, self.comparison, self.value))
    }

    /// The name that is defined.
    pub fn name(&self) -> &str
        ensures { result.now ≡ self.now.name }
    {
        self.name.as_str()
    }

    /// The name of the column.
    pub fn column(&self) -> &str
        ensures { result.now ≡ self.now.column }
    {
        self.column.as_str()
    }

    /// How its numbers are compared.
    pub fn comparison(&self) -> Comparison
        ensures { result ≡ self.now.comparison }
    {
        self.comparison
    }

    /// What its numbers are compared with.
    pub fn value(&self) -> i64
        ensures { result ≡ self.now.value }
    {
        self.value
    }
}
