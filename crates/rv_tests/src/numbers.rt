//! Rows, forms and multipliers as texts, and from texts. What cannot be read is none.

use rv_base::{Many, Memory};
use rv_rows::{Form, Multipliers, Row, Weight};
use std::alloc::{AllocError, Global};

/// Numbers with spaces between them.
pub fn numbers_in(alloc: Global, text: &str) -> Result<Option<Many<i128>>, Memory> {
    let mut numbers = Many::new(alloc);
    for word in text.split_whitespace() {
        match word.parse::<i128>() {
            Ok(number) => numbers.push(number)?,
            Err(_) => return Ok(None),
        }
    }
    Ok(Some(numbers))
}

/// A row, as `2 -3 <= 5`.
pub fn row_in(alloc: Global, text: &str) -> Result<Option<Row>, Memory> {
    let Some((left, right)) = text.split_once("<=") else {
        return Ok(None);
    };
    let Ok(bound) = right.trim().parse::<i128>() else {
        return Ok(None);
    };
    let Some(coefficients) = numbers_in(alloc, left)? else {
        return Ok(None);
    };
    Ok(Some(Row {
        coefficients,
        bound,
    }))
}

/// Rows with semicolons between them. There is none where the text is empty.
pub fn rows_in(alloc: Global, text: &str) -> Result<Option<Many<Row>>, Memory> {
    let mut rows = Many::new(alloc);
    if text.trim().len() == 0 {
        return Ok(Some(rows));
    }
    for part in text.split(';') {
        match row_in(alloc, part)? {
            Some(row) => rows.push(row)?,
            None => return Ok(None),
        }
    }
    Ok(Some(rows))
}

/// A form, as `2 -3 + 5`.
pub fn form_in(alloc: Global, text: &str) -> Result<Option<Form>, Memory> {
    let Some((left, right)) = text.split_once('+') else {
        return Ok(None);
    };
    let Ok(constant) = right.trim().parse::<i128>() else {
        return Ok(None);
    };
    let Some(coefficients) = numbers_in(alloc, left)? else {
        return Ok(None);
    };
    Ok(Some(Form {
        coefficients,
        constant,
    }))
}

/// Forms with semicolons between them. There is none where the text is empty.
pub fn forms_in(alloc: Global, text: &str) -> Result<Option<Many<Form>>, Memory> {
    let mut forms = Many::new(alloc);
    if text.trim().len() == 0 {
        return Ok(Some(forms));
    }
    for part in text.split(';') {
        match form_in(alloc, part)? {
            Some(form) => forms.push(form)?,
            None => return Ok(None),
        }
    }
    Ok(Some(forms))
}

/// A premise's number and its weight, as `0*2`.
fn weight_in(text: &str) -> Option<Weight> {
    let (premise, by) = text.split_once('*')?;
    Some(Weight {
        premise: premise.parse::<u32>().ok()?,
        by: by.parse::<i128>().ok()?,
    })
}

/// A divisor and weights, as `2: 0*1 1*1`.
pub fn multipliers_in(alloc: Global, text: &str) -> Result<Option<Multipliers>, Memory> {
    let Some((divisor, pairs)) = text.split_once(':') else {
        return Ok(None);
    };
    let Ok(divisor) = divisor.trim().parse::<i128>() else {
        return Ok(None);
    };
    let mut weights = Many::new(alloc);
    for pair in pairs.split_whitespace() {
        match weight_in(pair) {
            Some(weight) => weights.push(weight)?,
            None => return Ok(None),
        }
    }
    Ok(Some(Multipliers { divisor, weights }))
}

/// Adds numbers, each with a space behind it.
fn add_numbers(alloc: Global, numbers: &[i128], text: &mut String) -> Result<(), AllocError> {
    for number in numbers {
        let more = format!(in alloc; "{number} ")?;
        text.push_str(more.as_str())?;
    }
    Ok(())
}

/// A row as it is read.
pub fn row_text(alloc: Global, row: &Row) -> Result<String, AllocError> {
    let mut text = String::new(alloc);
    add_numbers(alloc, row.coefficients.as_slice(), &mut text)?;
    let bound = row.bound;
    text.push_str(format!(in alloc; "<= {bound}")?.as_str())?;
    Ok(text)
}

/// A form as it is read.
pub fn form_text(alloc: Global, form: &Form) -> Result<String, AllocError> {
    let mut text = String::new(alloc);
    add_numbers(alloc, form.coefficients.as_slice(), &mut text)?;
    let constant = form.constant;
    text.push_str(format!(in alloc; "+ {constant}")?.as_str())?;
    Ok(text)
}

/// Multipliers as they are read.
pub fn multipliers_text(alloc: Global, multipliers: &Multipliers) -> Result<String, AllocError> {
    let divisor = multipliers.divisor;
    let mut text = format!(in alloc; "{divisor}:")?;
    for weight in multipliers.weights.as_slice() {
        let (premise, by) = (weight.premise, weight.by);
        let more = format!(in alloc; " {premise}*{by}")?;
        text.push_str(more.as_str())?;
    }
    Ok(text)
}
