// Paging: a client that selects page by page, above each page's newest upload time, has been given every matching file. Definitions and theorems only;
// there is no code here.
//
// All is said of the machine of crates/model, which the server is (crates/refines). What a client sends is bytes, in any pieces, and a page is what the
// answer to them leaves. The examples P1 to P12 of document 01 stand here too, over the definitions that the contracts of all layers cite.
#![tactic(auto)]
