ghost use Rattle.std.specs.Prelude.{◌≡◌, ℕ, ◌^◌, ◌<◌, ◌↔◌, List, ℤ, ◌+ℤ◌, ◌*ℤ◌, length, IfOk, map};
ghost use Rattle.std.specs.Int.RustNames.{unsigned_abs};
ghost use Rattle.rv_rows.specs.Rows.{Holds, dot};
ghost use Rattle.rv_rows.specs.Forms.{number, value, values, IsSum, IsMultiple, IsSubstituted, CanAdd, CanScale, CanSubstitute, SumsStay, forms_width};

use crate::linear::{Form, Row};
use crate::sums::{number_at, plus_product};
use rv_base::{Many, Memory};
use std::alloc::Global;

/// The numbers of both, added column by column.
fn add_columns(alloc: Global, a: &Many<i128>, b: &Many<i128>) -> Result<Many<i128>, Memory>
    requires widths { length a.now ≡ length b.now }
    requires room { (k : ℕ) → unsigned_abs (number k a.now +ℤ number k b.now) < 2 ^ 110 }
    ensures width { IfOk result (λ c. length c ≡ length a.now) }
    ensures sums { IfOk result (λ c. (k : ℕ) → number k c ≡ number k a.now +ℤ number k b.now) }
{
    let mut sums = Many::new(alloc);
    for column in 0..a.len() {
        let sum = *a.at(column) + *b.at(column);
        sums.push(sum)?;
    }
    Ok(sums)
}

/// The numbers, each times `by`.
fn scale_columns(alloc: Global, a: &Many<i128>, by: i128) -> Result<Many<i128>, Memory>
    requires { (k : ℕ) → unsigned_abs (by *ℤ number k a.now) < 2 ^ 110 }
    ensures width { IfOk result (λ c. length c ≡ length a.now) }
    ensures products { IfOk result (λ c. (k : ℕ) → number k c ≡ by *ℤ number k a.now) }
{
    let mut products = Many::new(alloc);
    for column in 0..a.len() {
        let product = by * *a.at(column);
        products.push(product)?;
    }
    Ok(products)
}

impl Form {
    /// The sum of the two forms, which have one width. At every point its value is the sum of their values. The
    /// only error is want of memory.
    pub fn add(&self, alloc: Global, other: &Form) -> Result<Form, Memory>
        requires widths { length self.now.coefficients ≡ length other.now.coefficients }
        requires room { CanAdd self.now other.now }
        ensures exact { IfOk result (λ f. IsSum self.now other.now f) }
        ensures at_points { IfOk result (λ f. (point : List ℤ) → value f point ≡ value self.now point +ℤ value other.now point) }
    {
        let coefficients = add_columns(alloc, &self.coefficients, &other.coefficients)?;
        Ok(Form {
            coefficients,
            constant: self.constant + other.constant,
        })
    }

    /// The form times a number. At every point its value is that multiple of the form's value. The only error is
    /// want of memory.
    pub fn scale(&self, alloc: Global, by: i128) -> Result<Form, Memory>
        requires { CanScale by self.now }
        ensures exact { IfOk result (λ f. IsMultiple by self.now f) }
        ensures at_points { IfOk result (λ f. (point : List ℤ) → value f point ≡ by *ℤ value self.now point) }
    {
        let coefficients = scale_columns(alloc, &self.coefficients, by)?;
        Ok(Form {
            coefficients,
            constant: by * self.constant,
        })
    }
}

/// The sum of the coefficients, each times one column of its form.
fn column_sum(coefficients: &Many<i128>, forms: &Many<Form>, column: usize) -> i128
    requires same { length coefficients.now ≡ length forms.now }
    requires room { SumsStay coefficients.now (map (λ f. number column f.coefficients) forms.now) }
    ensures { result ≡ dot coefficients.now (map (λ f. number column f.coefficients) forms.now) }
{
    let mut sum: i128 = 0;
    for place in 0..coefficients.len() {
        let coefficient = *coefficients.at(place);
        let form = forms.at(place);
        let number = number_at(&form.coefficients, column);
        sum = plus_product(sum, coefficient, number);
    }
    sum
}

/// The sum of the coefficients, each times the constant of its form.
fn constant_sum(coefficients: &Many<i128>, forms: &Many<Form>) -> i128
    requires same { length coefficients.now ≡ length forms.now }
    requires room { SumsStay coefficients.now (map (λ f. f.constant) forms.now) }
    ensures value { result ≡ dot coefficients.now (map (λ f. f.constant) forms.now) }
    ensures small { unsigned_abs result < 2 ^ 110 }
{
    let mut sum: i128 = 0;
    for place in 0..coefficients.len() {
        let coefficient = *coefficients.at(place);
        let form = forms.at(place);
        sum = plus_product(sum, coefficient, form.constant);
    }
    sum
}

/// The width of the first form, 0 where there is none.
fn width_of(forms: &Many<Form>) -> usize
    ensures { result ≡ forms_width forms.now }
{
    match forms.get(0) {
        Some(form) => form.coefficients.len(),
        None => 0,
    }
}

/// For each column, the sum of the coefficients times that column of the forms.
fn column_sums(
    alloc: Global,
    coefficients: &Many<i128>,
    forms: &Many<Form>,
    width: usize,
) -> Result<Many<i128>, Memory>
    requires same { length coefficients.now ≡ length forms.now }
    requires room { (k : ℕ) → SumsStay coefficients.now (map (λ f. number k f.coefficients) forms.now) }
    ensures width { IfOk result (λ c. length c ≡ width) }
    ensures sums { IfOk result (λ c. (k : ℕ) → k < width → number k c ≡ dot coefficients.now (map (λ f. number k f.coefficients) forms.now)) }
{
    let mut sums = Many::new(alloc);
    for column in 0..width {
        let sum = column_sum(coefficients, forms, column);
        sums.push(sum)?;
    }
    Ok(sums)
}

impl Row {
    /// The row with its k-th column replaced by the k-th form; there are as many forms as columns, all of one
    /// width, which is the new row's. It holds at a point exactly where this row holds at the values that the
    /// forms have there. The only error is want of memory.
    pub fn substitute(&self, alloc: Global, by: &Many<Form>) -> Result<Row, Memory>
        requires { CanSubstitute self.now by.now }
        ensures exact { IfOk result (λ r. IsSubstituted self.now by.now r) }
        ensures same_points { IfOk result (λ r. (point : List ℤ) → Holds r point ↔ Holds self.now (values by.now point)) }
    {
        let coefficients = column_sums(alloc, &self.coefficients, by, width_of(by))?;
        let constants = constant_sum(&self.coefficients, by);
        Ok(Row {
            coefficients,
            bound: self.bound - constants,
        })
    }
}
