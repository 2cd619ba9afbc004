//! Statements in a short form.

use mr_pieces::Collation;
use mr_types::{
    Aggregate, Cmp, ColumnText, Columns, Expr, Factor, IndexName, Insert, ItemValue, KeyName,
    KeyText, KindText, NameList, Select, SetItem, SetTo, Statement, TableText, Term, Value,
};
use std::alloc::{AllocError, Global};

/// A text that is made, and whether memory was wanting for a part of it.
#[derive(Drop)]
struct Printer {
    text: Vec<u8>,
    is_cut: bool,
}

impl Printer {
    fn put(&mut self, bytes: &[u8]) {
        if self.text.extend_from_slice(bytes).is_err() {
            self.is_cut = true;
        }
    }

    fn put_length(&mut self, length: u128) {
        match length.to_string(*self.text.allocator()) {
            Ok(digits) => self.put(digits.as_bytes()),
            Err(_) => self.is_cut = true,
        }
    }

    fn put_number(&mut self, number: i128) {
        match number.to_string(*self.text.allocator()) {
            Ok(digits) => self.put(digits.as_bytes()),
            Err(_) => self.is_cut = true,
        }
    }
}

fn value(out: &mut Printer, value: &Value) {
    match value {
        Value::Null => out.put(b"null"),
        Value::Number(n) => out.put_number(*n),
        Value::Text(text) => {
            out.put(b"'");
            out.put(text.as_slice());
            out.put(b"'")
        }
        Value::Bytes(bytes) => {
            out.put(b"x'");
            out.put(bytes.as_slice());
            out.put(b"'")
        }
    }
}

fn names(out: &mut Printer, names: &NameList) {
    out.put(b"(");
    for name in names.as_slice() {
        out.put(name.as_slice());
        out.put(b" ");
    }
    out.put(b")")
}

fn sign(cmp: Cmp) -> &'static [u8] {
    match cmp {
        Cmp::Eq => b"=",
        Cmp::Ne => b"!",
        Cmp::Lt => b"<",
        Cmp::Le => b"<=",
        Cmp::Gt => b">",
        Cmp::Ge => b">=",
    }
}

fn expr(out: &mut Printer, e: &Expr) {
    match e {
        Expr::Compare(name, cmp, v) => {
            out.put(name.as_slice());
            out.put(sign(*cmp));
            value(out, v)
        }
        Expr::IsNull(name) => {
            out.put(name.as_slice());
            out.put(b"?")
        }
        Expr::Between(name, low, high) => {
            out.put(name.as_slice());
            out.put(b":");
            value(out, low);
            out.put(b"..");
            value(out, high)
        }
        Expr::OneOf(name, values) => {
            out.put(name.as_slice());
            out.put(b":{");
            for v in values.as_slice() {
                value(out, v);
                out.put(b" ");
            }
            out.put(b"}")
        }
        Expr::Not(part) => {
            out.put(b"~");
            expr(out, part.get())
        }
        Expr::And(parts) => {
            out.put(b"&(");
            for part in parts.as_slice() {
                expr(out, part);
                out.put(b" ");
            }
            out.put(b")")
        }
        Expr::Or(parts) => {
            out.put(b"|(");
            for part in parts.as_slice() {
                expr(out, part);
                out.put(b" ");
            }
            out.put(b")")
        }
    }
}

fn condition(out: &mut Printer, e: &Option<Expr>) {
    match e {
        None => {}
        Some(e) => {
            out.put(b" where ");
            expr(out, e)
        }
    }
}

fn insert(out: &mut Printer, insert: &Insert) {
    out.put(insert.table.as_slice());
    if let Some(columns) = &insert.columns {
        names(out, columns);
    }
    for row in insert.rows.as_slice() {
        out.put(b" (");
        for item in row.as_slice() {
            match item {
                ItemValue::Default => out.put(b"*"),
                ItemValue::Literal(v) => value(out, v),
            }
            out.put(b" ");
        }
        out.put(b")");
    }
}

fn term(out: &mut Printer, term: &Term) {
    out.put(if term.minus {
        b"-(".as_slice()
    } else {
        b"+(".as_slice()
    });
    for factor in term.factors.as_slice() {
        match factor {
            Factor::Column(name) => out.put(name.as_slice()),
            Factor::Literal(v) => value(out, v),
        }
        out.put(b" ");
    }
    out.put(b")")
}

fn set(out: &mut Printer, item: &SetItem) {
    out.put(b" ");
    out.put(item.column.as_slice());
    out.put(b"=");
    match &item.to {
        SetTo::Default => out.put(b"*"),
        SetTo::Sum(terms) => {
            for part in terms.as_slice() {
                term(out, part);
            }
        }
    }
}

fn aggregate(out: &mut Printer, aggregate: &Aggregate) {
    match aggregate {
        Aggregate::Count => out.put(b"count "),
        Aggregate::Min(name) => {
            out.put(b"min:");
            out.put(name.as_slice());
            out.put(b" ")
        }
        Aggregate::Max(name) => {
            out.put(b"max:");
            out.put(name.as_slice());
            out.put(b" ")
        }
    }
}

fn columns(out: &mut Printer, columns: &Columns) {
    match columns {
        Columns::All => out.put(b"*"),
        Columns::Names(list) => names(out, list),
        Columns::Aggregates(list) => {
            out.put(b"{");
            for part in list.as_slice() {
                aggregate(out, part);
            }
            out.put(b"}")
        }
    }
}

fn select(out: &mut Printer, select: &Select) {
    columns(out, &select.columns);
    out.put(b" ");
    out.put(select.table.as_slice());
    match &select.forced {
        None => {}
        Some(IndexName::Primary) => out.put(b" by-primary"),
        Some(IndexName::Name(name)) => {
            out.put(b" by ");
            out.put(name.as_slice());
        }
    }
    condition(out, &select.condition);
    for item in select.order.as_slice() {
        out.put(if item.descending { b" -" } else { b" +" });
        out.put(item.column.as_slice());
    }
    if select.skip > 0 {
        out.put(b" skip ");
        out.put_number(select.skip as i128);
    }
    if let Some(most) = select.most {
        out.put(b" most ");
        out.put_number(most as i128);
    }
}

fn collation(collation: Collation) -> &'static [u8] {
    match collation {
        Collation::Bin => b" bin",
        Collation::Ci => b" ci",
    }
}

fn kind(out: &mut Printer, kind: KindText) {
    match kind {
        KindText::Int => out.put(b" int"),
        KindText::IntUnsigned => out.put(b" uint"),
        KindText::BigInt => out.put(b" big"),
        KindText::BigIntUnsigned => out.put(b" ubig"),
        KindText::VarChar(length, how) => {
            out.put(b" char");
            out.put_length(length);
            out.put(collation(how))
        }
        KindText::VarBinary(length) => {
            out.put(b" bin");
            out.put_length(length)
        }
    }
}

fn column(out: &mut Printer, column: &ColumnText) {
    out.put(b" ");
    out.put(column.name.as_slice());
    kind(out, column.kind);
    if !column.nullable {
        out.put(b" not");
    }
    if let Some(v) = &column.default {
        out.put(b" =");
        value(out, v);
    }
    out.put(b",")
}

fn key(out: &mut Printer, key: &KeyText) {
    out.put(if key.primary {
        b" primary"
    } else if key.unique {
        b" unique "
    } else {
        b" key "
    });
    out.put(key.name.as_slice());
    names(out, &key.columns);
    out.put(key.comment.as_slice())
}

fn table(out: &mut Printer, table: &TableText) {
    out.put(table.name.as_slice());
    for part in table.columns.as_slice() {
        column(out, part);
    }
    for part in table.keys.as_slice() {
        key(out, part);
    }
    out.put(b" '");
    out.put(table.comment.as_slice());
    out.put(b"'")
}

fn key_name(out: &mut Printer, name: &KeyName) {
    out.put(name.table.as_slice());
    out.put(b".");
    out.put(name.key.as_slice())
}

fn schema(out: &mut Printer, statement: &Statement) {
    match statement {
        Statement::CreateTable {
            text,
            if_not_exists,
            engine,
        } => {
            out.put(b"table ");
            table(out, text);
            if *if_not_exists {
                out.put(b" mild");
            }
            if let Some(engine) = engine {
                out.put(b" engine ");
                out.put(engine.as_slice());
            }
        }
        Statement::DropTable { table, if_exists } => {
            out.put(b"drop ");
            out.put(table.as_slice());
            out.put(if *if_exists { b" mild" } else { b"" })
        }
        Statement::CreateIndex { table, key: made } => {
            out.put(b"index ");
            out.put(table.as_slice());
            key(out, made)
        }
        Statement::DropIndex(name) => {
            out.put(b"drop ");
            key_name(out, name)
        }
        Statement::BeginIndex { table, key: made } => {
            out.put(b"begin ");
            out.put(table.as_slice());
            key(out, made)
        }
        Statement::FinishIndex(name) => {
            out.put(b"finish ");
            key_name(out, name)
        }
        Statement::CancelIndex(name) => {
            out.put(b"cancel ");
            key_name(out, name)
        }
        _ => {}
    }
}

fn on_rows(out: &mut Printer, statement: &Statement) {
    match statement {
        Statement::Insert(parts) => {
            out.put(b"insert ");
            insert(out, parts)
        }
        Statement::Replace(parts) => {
            out.put(b"replace ");
            insert(out, parts)
        }
        Statement::Update {
            table,
            set: items,
            condition: test,
        } => {
            out.put(b"update ");
            out.put(table.as_slice());
            for item in items.as_slice() {
                set(out, item);
            }
            condition(out, test)
        }
        Statement::Delete {
            table,
            condition: test,
        } => {
            out.put(b"delete ");
            out.put(table.as_slice());
            condition(out, test)
        }
        Statement::Select(parts) => {
            out.put(b"select ");
            select(out, parts)
        }
        _ => {}
    }
}

fn session(out: &mut Printer, statement: &Statement) {
    match statement {
        Statement::Begin { snapshot } => out.put(if *snapshot { b"snapshot" } else { b"begin" }),
        Statement::Commit => out.put(b"commit"),
        Statement::Rollback => out.put(b"rollback"),
        Statement::RollbackTo(name) => {
            out.put(b"to ");
            out.put(name.as_slice())
        }
        Statement::Savepoint(name) => {
            out.put(b"savepoint ");
            out.put(name.as_slice())
        }
        Statement::Release(name) => {
            out.put(b"release ");
            out.put(name.as_slice())
        }
        Statement::Lock(list) => {
            out.put(b"lock ");
            names(out, list)
        }
        Statement::Unlock => out.put(b"unlock"),
        Statement::Session(name) => {
            out.put(b"session ");
            out.put(name.as_slice())
        }
        Statement::Disconnect => out.put(b"disconnect"),
        Statement::Work(units) => {
            out.put(b"work ");
            out.put_number(*units as i128)
        }
        _ => {}
    }
}

/// The statement in a short form.
pub fn printed(alloc: Global, statement: &Statement) -> Result<Vec<u8>, AllocError> {
    let mut out = Printer {
        text: Vec::new(alloc),
        is_cut: false,
    };
    schema(&mut out, statement);
    on_rows(&mut out, statement);
    session(&mut out, statement);
    if out.is_cut {
        return Err(AllocError);
    }
    Ok(out.text)
}
