use flow_base::{Memory, Text};
use gql_print::canonical;
use gql_syntax::parse;
use std::alloc::Global;
use std::test::Fail;

/// The canonical text of the document that a text is.
fn rewritten(alloc: Global, text: &str) -> Result<Text, Memory> {
    match parse(alloc, &Text::of(alloc, text)?) {
        Ok(document) => canonical(alloc, &document),
        Err(_) => Text::of(alloc, "no document"),
    }
}

#[test]
fn documents_are_rewritten(rt: HostRuntime) -> Result<(), Fail> {
    let cases = [
        ("{a,b(x:$y)#c\n}", "query { a b ( x : $y ) }"),
        ("query($x:Int){a}", "query ( $x : Int ) { a }"),
        ("{a", "no document"),
    ];
    for (text, wanted) in cases {
        assert_eq!(rt; rewritten(rt.alloc(), text)?.as_str(), wanted);
    }
    Ok(())
}
