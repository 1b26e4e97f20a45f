//! The laws.
ghost use Rattle.java_text_laws.specs.Laws.{ReadsBack, FlatProductsAreWritable};

/// The canonical text of a flat class table, whose names are names of Java and whose parameters are distinct
/// (`IsWritable`), is the Java text of that table and of no other, places aside.
pub fn texts_read_back()
    ensures { ReadsBack }
{
    dj_front::one_java_table();
}

/// The flat tables of products of accepted product lines that tokens spell are such tables.
pub fn flat_products_are_writable()
    ensures { FlatProductsAreWritable }
{
    dj_calculus_laws::tables_are_tables();
    dj_calculus_laws::distinct_parameters();
}
